//! The law of calls that take completions.
ghost use Rattle.std.specs.Prelude.{List};
ghost use Rattle.verbs_rules.specs.Within.{Bounds};
ghost use Rattle.verbs_types.specs.declared.call.Call.{Call};
ghost use Rattle.verbs_types.specs.declared.declaration.Lines.{Lines};
ghost use Rattle.actor_rules.specs.Holding.{IsMapped};
ghost use Rattle.poll_law.specs.Law.{PollsGo};

use load_law::laws::loads_come;

/// Each operation that the rule of a thread allows in a poll or a drain keeps what holds between operations. What it
/// says, if anything, is a legal step that the thread owed, and the index up to which the thread has seen completions
/// published serves for it.
pub fn polls_go()
    ensures { (d : Lines) (programs : List (List Call)) (bounds : Bounds) → IsMapped d → PollsGo d programs bounds }
{
    loads_come();
}
