//! What holds of every trace of a send or receive queue.
ghost use Rattle.std.specs.Prelude.{ℕ, List};
ghost use Rattle.bus_core.specs.Mark.{Marked};
ghost use Rattle.bus_core.specs.Trace.{Memory};
ghost use Rattle.counted_ring.specs.Kept.{KeepsRequests, NamesOne};
ghost use Rattle.counted_ring.specs.Law.{IsRun, history};
ghost use Rattle.counted_ring.specs.Mark.{WqMark};
ghost use Rattle.counted_ring.specs.Place.{IsPlace};
ghost use Rattle.counted_ring.specs.Queue.{IsLegal, empty_queue};
ghost use Rattle.counted_ring.specs.declared.place.WqPlace.{WqPlace};

/// In every consistent trace whose users keep their rules, while nobody else writes the queue's words
/// and the retirer looks up what was taken, what the marked operations say is, in the trace's order,
/// a legal history of a list of requests.
pub fn stands()
    ensures { (place : WqPlace) (index : ℕ) (start : Memory) (trace : List (Marked WqMark)) →
        IsRun place index start trace → IsLegal place (empty_queue index) (history place index trace) }
{}

/// What such a history says of requests: they are taken as they were written and in this order, what
/// is found is the request of that counter, which was taken and is not retired, full is told only of
/// a full queue, and requests are retired in order.
pub fn keeps_requests()
    ensures { (place : WqPlace) (index : ℕ) → KeepsRequests place index }
{}

/// After such a history, a counter of 16 bits names at most one request that was taken and is not
/// retired.
pub fn names_one()
    ensures { (place : WqPlace) (index : ℕ) → IsPlace place → NamesOne place index }
{}
