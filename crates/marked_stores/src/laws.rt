//! The law of the words in which actors take news of one another.
ghost use Rattle.std.specs.Prelude.{List};
ghost use Rattle.verbs_rules.specs.Within.{Bounds};
ghost use Rattle.verbs_types.specs.declared.call.Call.{Call};
ghost use Rattle.verbs_types.specs.declared.declaration.Lines.{Lines};
ghost use Rattle.actor_rules.specs.Ready.{AreReady};
ghost use Rattle.actor_rules.specs.Run.{Phases, IsRun, whole};
ghost use Rattle.marked_stores.specs.Stores.{SayEntries};

use object_places::laws as places;
use run_law::laws::operations_go;

/// In every run each operation that writes a word of news says an entry of the history: a record or a tail of a send
/// or receive queue, and of a completion queue the owner words of both areas, the consumer index and the words of arms.
pub fn stores_are_told()
    ensures { (d : Lines) (programs : List (List Call)) (bounds : Bounds) (phases : Phases) →
        AreReady d programs bounds → IsRun d programs phases → SayEntries d programs (whole phases) }
{
    operations_go();
    places::places();
    places::apart();
    places::starts();
    places::words();
}
