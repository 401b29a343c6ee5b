//! What holds of every trace of the arms of a completion queue.
ghost use Rattle.std.specs.Prelude.{ℕ, List};
ghost use Rattle.bus_core.specs.Mark.{Marked};
ghost use Rattle.bus_core.specs.Trace.{Memory};
ghost use Rattle.cq_arms.specs.Arms.{IsLegal, fresh_arms};
ghost use Rattle.cq_arms.specs.Kept.{KeepsEvents};
ghost use Rattle.cq_arms.specs.Law.{IsRun, history};
ghost use Rattle.cq_arms.specs.Mark.{ArmMark};
ghost use Rattle.cq_arms.specs.declared.place.ArmPlace.{ArmPlace};

/// In every consistent trace whose three sides keep their rules, while nobody else writes the words
/// of arms and the queues beside ensure what is asked of them, what the marked operations say is, in
/// the trace's order, a legal history of a plain object of whole numbers.
pub fn stands()
    ensures { (place : ArmPlace) (index : ℕ) (start : Memory) (trace : List (Marked ArmMark)) →
        IsRun place index start trace → IsLegal (fresh_arms index) (history index trace) }
{}

/// What such a history says of events: an arm that was seen and passed has its event, once. Each
/// event is for one such arm, a repeated arm makes no second event, and events are written and taken
/// in order.
pub fn keeps_events()
    ensures { (index : ℕ) → KeepsEvents index }
{}
