//! The bounds that follow from the rules alone.
ghost use Rattle.std.specs.Prelude.{ℕ, suc, List};
ghost use Rattle.bus_core.specs.Mark.{Marked};
ghost use Rattle.verbs_rules.specs.Within.{Bounds};
ghost use Rattle.verbs_types.specs.declared.call.Call.{Call};
ghost use Rattle.verbs_types.specs.declared.declaration.Lines.{Lines};
ghost use Rattle.object_places.specs.Objects.{Mark};
ghost use Rattle.actor_rules.specs.Ready.{AreReady};
ghost use Rattle.actor_rules.specs.Run.{Phases, IsRun, whole};
ghost use Rattle.operation_bounds.specs.Adapter.{AdapterGoesOn};
ghost use Rattle.operation_bounds.specs.Run.{KeepsRule, AreBounded, IsBoundedRun};

use object_places::laws as places;

/// A thread that keeps its rule ends each post, receive call and poll of n parts within 64 n + 64 operations of its
/// own. In a drain it looks at the owner word of its next entry again and again, with fewer than 64 operations between,
/// and what it finds there it tells as taken at most 64 operations later.
pub fn calls_end()
    ensures { (d : Lines) (programs : List (List Call)) (bounds : Bounds) (t : ℕ) (ops : List (Marked Mark)) →
        AreReady d programs bounds → KeepsRule d programs (suc t) ops → AreBounded d programs (suc t) ops }
{
    places::places();
    places::apart();
}

/// Between taking a request and publishing its completion an adapter that keeps its rule makes at most 96 operations
/// of its own.
pub fn adapter_goes_on()
    ensures { (d : Lines) (programs : List (List Call)) (ops : List (Marked Mark)) → KeepsRule d programs 0 ops → AdapterGoesOn d ops }
{}

/// In every run all threads and the adapter keep these bounds.
pub fn run_is_bounded()
    ensures { (d : Lines) (programs : List (List Call)) (bounds : Bounds) (phases : Phases) →
        AreReady d programs bounds → IsRun d programs phases → IsBoundedRun d programs (whole phases) }
{
    calls_end();
    adapter_goes_on();
}
