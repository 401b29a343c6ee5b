//! What holds of every trace of a completion queue.
ghost use Rattle.std.specs.Prelude.{ℕ, List};
ghost use Rattle.bus_core.specs.Mark.{Marked};
ghost use Rattle.bus_core.specs.Trace.{Memory};
ghost use Rattle.owner_ring.specs.Place.{size};
ghost use Rattle.cq_pair.specs.Law.{IsRun, history};
ghost use Rattle.cq_pair.specs.Mark.{QueueMark};
ghost use Rattle.cq_pair.specs.Place.{ring_of};
ghost use Rattle.cq_pair.specs.Queue.{PlainQueue, IsLegal, KeepsCompletions, empty_queue};
ghost use Rattle.cq_pair.specs.Rows.{ReadsAsHistory, StaysOrdered};
ghost use Rattle.cq_pair.specs.Seeing.{SeesEnough};
ghost use Rattle.cq_pair.specs.declared.place.CqPlace.{CqPlace};

/// In every consistent trace whose two sides keep their rules, while nobody else writes the queue's
/// words, what the marked operations say is, in the trace's order, a legal history of a list of
/// completions.
pub fn stands()
    ensures { (place : CqPlace) (index : ℕ) (start : Memory) (trace : List (Marked QueueMark)) →
        IsRun place index start trace → IsLegal (size (ring_of place)) (empty_queue index) (history place index trace) }
{}

/// In every such trace, the consumer index that the device's side saw last is one that was acknowledged, and
/// at the store that publishes a completion it leaves room for one more.
pub fn sees_enough()
    ensures { (place : CqPlace) (index : ℕ) (start : Memory) (trace : List (Marked QueueMark)) →
        IsRun place index start trace → SeesEnough place index trace }
{}

/// What such a history says of completions: publications have consecutive indices, and what is
/// taken was published before, at its index.
pub fn keeps_completions()
    ensures { (size start : ℕ) → KeepsCompletions size start }
{}

/// What the events of such a history say of the completions that no poll took, as the entries of a
/// history of verbs queues have it; and that its indices stand in order, within the queue's size.
pub fn reads_as_history()
    ensures steps { (size : ℕ) (q : PlainQueue) → ReadsAsHistory size q }
    ensures ordered { (size index : ℕ) → StaysOrdered size index }
{}
