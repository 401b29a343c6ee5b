//! The law of scenarios that can run.
ghost use Rattle.scenario_text.specs.Running.{CanRun};
ghost use Rattle.scenario_text.specs.declared.scenario.ScenarioParts.{ScenarioParts};
ghost use Rattle.ready_scenarios.specs.Ready.{IsReady};

/// A scenario that can run gives the law of all actors what it asks: each call is its thread's own and on declared
/// objects, and the state in which the run begins is within the bounds of its calls. Each thread is within the limits
/// of threads, and the map of the objects has at most 2^20 words.
pub fn ready()
    ensures { (s : ScenarioParts) → CanRun s → IsReady s }
{}
