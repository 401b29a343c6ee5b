//! The law of the adapter.
ghost use Rattle.std.specs.Prelude.{List};
ghost use Rattle.verbs_rules.specs.Within.{Bounds};
ghost use Rattle.verbs_types.specs.declared.call.Call.{Call};
ghost use Rattle.verbs_types.specs.declared.declaration.Lines.{Lines};
ghost use Rattle.actor_rules.specs.Holding.{IsMapped};
ghost use Rattle.adapter_law.specs.Law.{AdapterGoes};

/// Each operation that the adapter's rule allows keeps what holds between operations. What it says, if anything, is a
/// legal step, and the count of requests or the consumer index that the adapter has seen serves for it.
pub fn adapter_goes()
    ensures { (d : Lines) (programs : List (List Call)) (bounds : Bounds) → IsMapped d → AdapterGoes d programs bounds }
{}
