//! What holds of every trace of a shared receive queue.
ghost use Rattle.std.specs.Prelude.{ℕ, List};
ghost use Rattle.bus_core.specs.Mark.{Marked, entries};
ghost use Rattle.bus_core.specs.Trace.{Memory, memory_after};
ghost use Rattle.srq_list.specs.Chain.{IsFreeChain};
ghost use Rattle.srq_list.specs.Kept.{KeepsReceives, KeepsSlots};
ghost use Rattle.srq_list.specs.Law.{IsRun, history, users_after, queue_after};
ghost use Rattle.srq_list.specs.Mark.{SrqMark};
ghost use Rattle.srq_list.specs.Queue.{IsLegal, empty_queue, free_slots};
ghost use Rattle.srq_list.specs.declared.place.SrqPlace.{SrqPlace};

/// In every consistent trace whose users keep their rules, while nobody else writes the queue's words
/// and the freer speaks of slots whose receive was taken and which were not freed since, what the marked
/// operations say is, in the trace's order, a legal history of a list of receives and a queue of slots.
pub fn stands()
    ensures { (place : SrqPlace) (start : ℕ) (m : Memory) (trace : List (Marked SrqMark)) →
        IsRun place start m trace → IsLegal place (empty_queue place) (history place start trace) }
{}

/// At the end of such a trace the free slots are those from the poster's head to the tail word, along
/// the next indices of the slots.
pub fn links_free_slots()
    ensures { (place : SrqPlace) (start : ℕ) (m : Memory) (trace : List (Marked SrqMark)) →
        IsRun place start m trace → IsFreeChain place (memory_after m (entries trace)) (users_after place start trace).poster.head (free_slots (queue_after place start trace)) }
{}

/// What such a history says of receives: they are taken as they were posted, in this order, with their
/// words and at their slots; none there is told only where all of them are taken, and full only where
/// each slot but one is in use; the id that is found is that of the receive that was taken at the slot;
/// and a slot is freed between two takes of it.
pub fn keeps_receives()
    ensures { (place : SrqPlace) → KeepsReceives place }
{}

/// After such a history each slot is free, or a receive lies there that was not taken, or one that was
/// and whose slot was not freed since, and it is one of these alone.
pub fn keeps_slots()
    ensures { (place : SrqPlace) → KeepsSlots place }
{}
