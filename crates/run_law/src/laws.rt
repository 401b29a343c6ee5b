//! The law of the whole.
ghost use Rattle.std.specs.Prelude.{List};
ghost use Rattle.verbs_rules.specs.Within.{Bounds};
ghost use Rattle.verbs_types.specs.declared.call.Call.{Call};
ghost use Rattle.verbs_types.specs.declared.declaration.Lines.{Lines};
ghost use Rattle.actor_rules.specs.Holding.{IsMapped, AllGo};
ghost use Rattle.actor_rules.specs.Ready.{AreReady};
ghost use Rattle.actor_rules.specs.Run.{Phases, IsRun, IsWoven, whole};

use adapter_law::laws::adapter_goes;
use object_places::laws as places;
use poll_law::laws::polls_go;
use post_law::laws::posts_go;

/// Each operation that its actor's rule allows keeps what holds between operations, whoever moves.
pub fn operations_go()
    ensures { (d : Lines) (programs : List (List Call)) (bounds : Bounds) → IsMapped d → AllGo d programs bounds }
{
    adapter_goes();
    posts_go();
    polls_go();
}

/// In every consistent trace from the words with which a run begins, in which each actor keeps the rule of its role in
/// each phase, over its own operations and in whatever order the actors take turns, what the marked operations say is a
/// legal history of verbs queues, and each thread's entries are those of its calls, each once and in order; and the
/// count of another actor that each entry's maker saw serves for it. In the
/// opening and in the closing the adapter is alone; in the turns between, each thread moves too.
pub fn woven()
    ensures { (d : Lines) (programs : List (List Call)) (bounds : Bounds) (phases : Phases) →
        AreReady d programs bounds → IsRun d programs phases → IsWoven d programs (whole phases) }
{
    operations_go();
    places::places();
    places::apart();
    places::starts();
}
