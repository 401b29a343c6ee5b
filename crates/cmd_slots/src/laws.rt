//! What holds of every trace of the command slots.
ghost use Rattle.std.specs.Prelude.{List};
ghost use Rattle.bus_core.specs.Mark.{Marked};
ghost use Rattle.bus_core.specs.Trace.{Memory};
ghost use Rattle.cmd_slots.specs.Law.{IsRun, history};
ghost use Rattle.cmd_slots.specs.Mark.{SlotMark};
ghost use Rattle.cmd_slots.specs.Slot.{IsLegal, KeepsQuestions, all_free};

/// In every consistent trace in which the host of each slot and the device keep their rules, while
/// nobody else writes the slots' words, what the marked operations say is, in the trace's order, a
/// legal history of slots that are each a question and its answer.
pub fn stands()
    ensures { (start : Memory) (trace : List (Marked SlotMark)) → IsRun start trace → IsLegal all_free (history trace) }
{}

/// What such a history says of each slot by itself: a command is asked of a free slot, what the device
/// reads is the command that was asked, what the host reads is the answer that was given, and each
/// command is executed once and each answer read once, in order.
pub fn keeps_questions()
    ensures { KeepsQuestions }
{}
