//! From the text of a scenario to the text of its run.
ghost use Rattle.std.specs.Prelude.{IfOk, IfErr, length};
ghost use Rattle.scenario_text.specs.Limits.{turns_of};
ghost use Rattle.scenario_text.specs.Whole.{HasFault};
ghost use Rattle.world_core.specs.Outcome.{IsOutcome};
ghost use Rattle.mlx5_cli.specs.RunText.{IsRunOf, IsRunText};

use scenario_text::laws::heads_are_printed;
use scenario_text::{Scenario, ScenarioFault, parse_scenario};
use std::alloc::Global;
use transcript_text::print_run;
use verbs_types::NoMemory;
use world_core::{Outcome, World};

/// The text of a run of the scenario that `text` spells, its history and then its trace, or why it spells none that may
/// run.
pub fn run_of(alloc: Global, text: &[u8]) -> Result<Vec<u8>, ScenarioFault>
    ensures run { IfOk result (λ output. IsRunOf text.now output.items) }
    ensures refused { IfErr result (HasFault text.now) }
{
    let scenario = parse_scenario(alloc, text)?;
    heads_are_printed();
    match run_text(alloc, &scenario) {
        Ok(output) => Ok(output),
        Err(_) => Err(ScenarioFault::NoMemory),
    }
}

/// The text of a run of a scenario.
fn run_text(alloc: Global, scenario: &Scenario) -> Result<Vec<u8>, NoMemory>
    ensures { IfOk result (λ text. IsRunText scenario.now text.items) }
{
    let outcome = outcome_of(alloc, scenario)?;
    let text = print_run(
        alloc,
        scenario.declared(),
        outcome.history.as_slice(),
        outcome.trace.as_slice(),
        outcome.marks.as_slice(),
    )?;
    Ok(text)
}

/// What all turns of the scenario's plan leave.
fn outcome_of(alloc: Global, scenario: &Scenario) -> Result<Outcome, NoMemory>
    ensures { IfOk result (IsOutcome scenario.now (turns_of (length scenario.now.lines.threads) scenario.now.plan)) }
{
    let mut world = World::from_scenario(alloc, scenario)?;
    world.run_schedule();
    world.finish(alloc)
}
