//! What holds of every trace of an event queue.
ghost use Rattle.std.specs.Prelude.{ℕ, List};
ghost use Rattle.bus_core.specs.Mark.{Marked};
ghost use Rattle.bus_core.specs.Trace.{Memory};
ghost use Rattle.owner_ring.specs.Law.{IsStart};
ghost use Rattle.owner_ring.specs.Place.{size};
ghost use Rattle.eq_pair.specs.Law.{IsRun, history};
ghost use Rattle.eq_pair.specs.Mark.{EqMark};
ghost use Rattle.eq_pair.specs.Place.{ring_of, IsFresh};
ghost use Rattle.eq_pair.specs.Queue.{EventList, IsLegal, KeepsEvents, no_events};
ghost use Rattle.eq_pair.specs.Rows.{ReadsAsHistory, StaysOrdered};
ghost use Rattle.eq_pair.specs.declared.place.EqPlace.{EqPlace};

/// In every consistent trace whose two sides keep their rules, while nobody else writes the queue's
/// words, what the marked operations say is, in the trace's order, a legal history of a list of
/// events. It supposes that an event is begun only while fewer events than the queue has entries are
/// untaken.
pub fn stands()
    ensures { (place : EqPlace) (start : Memory) (trace : List (Marked EqMark)) →
        IsRun place start trace → IsLegal (size (ring_of place)) no_events (history place trace) }
{}

/// The words of a queue to which no event was written are start words for that law.
pub fn starts_fresh()
    ensures { (place : EqPlace) (start : Memory) → IsFresh place start → IsStart (ring_of place) 0 start }
{}

/// What such a history says of events: they are given in the order of writing, each once, with the
/// contents that were written, and none is found only where all were given.
pub fn keeps_events()
    ensures { (size : ℕ) → KeepsEvents size }
{}

/// What the events of such a history say of the untaken events, as the entries of a history of
/// verbs have it; and that its indices stand in order, within the queue's size.
pub fn reads_as_history()
    ensures steps { (size : ℕ) (q : EventList) → ReadsAsHistory size q }
    ensures ordered { (size : ℕ) → StaysOrdered size }
{}
