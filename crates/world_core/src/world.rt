//! The world: the threads of a scenario and the adapter, one operation after another.
ghost use Rattle.std.specs.Prelude.{◌≡◌, ◌+◌, ◌<◌, ◌≤◌, ◌++◌, ◌∷◌, [], Some, length, replicate, IfOk, IfSome, slice_get};
ghost use Rattle.scenario_text.specs.Limits.{round_of, rounds_of, turn_count, turns_of as turns_of_plan};
ghost use Rattle.scenario_text.specs.Running.{items_of_plan};
ghost use Rattle.world_core.specs.Outcome.{IsOutcome};
ghost use Rattle.world_core.specs.World.{rounds_of_plan, turns_of_items};

use crate::copies::{copy_of_plan, copy_of_programs};
use crate::outcome::Outcome;
use crate::run::Run;
use crate::start::first_run;
use crate::turns::times;
use device_engine::laws::counts_grow;
use marked_stores::laws::stores_are_told;
use noted_history::history_of;
use operation_bounds::laws::run_is_bounded;
use ready_scenarios::laws::ready;
use run_law::laws::woven;
use scenario_text::{Plan, PlanItem, Scenario};
use std::alloc::Global;
use std::marker::Model;
use std::snapshot::Snapshot;
use verbs_model::{Abstract, start};
use verbs_types::{ADAPTER, Call, NoMemory, Sequence};

/// The threads of a scenario and the adapter, over the words that they share, between two turns.
#[derive(Drop)]
pub struct World {
    scenario: Snapshot<Scenario>,
    programs: Vec<Sequence<Call>>,
    plan: Plan,
    /// The state of verbs queues before the first turn.
    first: Abstract,
    run: Run,
}

impl Model for World {
    ghost use Rattle.world_core.specs.World.{WorldView};

    ghost Value = { WorldView };

    ghost use Rattle.world_core.specs.WorldInside.{world_view, IsWorld};

    ghost view = { world_view };

    ghost invariant = { IsWorld };
}

impl World {
    /// The world of a scenario before its first turn, with room for all that its turns make.
    pub fn from_scenario(alloc: Global, scenario: &Scenario) -> Result<World, NoMemory>
        ensures { IfOk result (λ w. w ≡ record { parts = scenario.now; turns = [] }) }
    {
        counts_grow();
        let programs = copy_of_programs(alloc, scenario.programs())?;
        let plan = copy_of_plan(alloc, scenario.plan())?;
        let first = start(alloc, scenario.declared())?;
        let run = first_run(alloc, scenario)?;
        Ok(World {
            scenario: Snapshot::of(scenario),
            programs,
            plan,
            first,
            run,
        })
    }

    /// A turn of the adapter, or of a thread of the scenario: one operation, or none of a thread that has ended. It
    /// does not allocate.
    pub fn turn(&mut self, actor: u8)
        requires left { length self.old.turns < turn_count (length self.old.parts.lines.threads) self.old.parts.plan }
        requires actor { actor ≤ length self.old.parts.programs }
        ensures { self.new ≡ record self.old { turns = self.old.turns ++ actor ∷ [] } }
    {
        // How far the adapter's counts rise.
        counts_grow();
        self.run.turn(actor);
    }

    /// All turns of the scenario's plan. It does not allocate.
    pub fn run_schedule(&mut self)
        requires { self.old.turns ≡ [] }
        ensures { self.new ≡ record self.old { turns = turns_of_plan (length self.old.parts.lines.threads) self.old.parts.plan } }
    {
        match self.rounds() {
            Some(rounds) => self.run_rounds(rounds),
            None => self.run_items(),
        }
    }

    /// How many rounds the plan has, if it is one of rounds.
    fn rounds(&self) -> Option<u64>
        ensures { result ≡ rounds_of_plan self.now.parts.plan }
    {
        match &self.plan {
            Plan::Rounds(rounds) => Some(*rounds),
            Plan::Idle | Plan::Schedule(_) => None,
        }
    }

    /// The turns of each item of the plan.
    fn run_items(&mut self)
        requires { self.old.turns ≡ [] }
        ensures { self.new ≡ record self.old { turns = turns_of_items (items_of_plan self.old.parts.plan) } }
    {
        for index in 0..self.planned_items() {
            if let Some(item) = self.planned(index) {
                self.turn_times(item.actor, times(item));
            }
        }
    }

    /// How many items the plan has.
    fn planned_items(&self) -> usize
        ensures { result ≡ length (items_of_plan self.now.parts.plan) }
    {
        match &self.plan {
            Plan::Idle | Plan::Rounds(_) => 0,
            Plan::Schedule(items) => items.len(),
        }
    }

    /// The item of the plan at a place.
    fn planned(&self, index: usize) -> Option<PlanItem>
        ensures item { result ≡ slice_get (items_of_plan self.now.parts.plan) index }
        ensures actor { IfSome result (λ i. i.actor ≤ length self.now.parts.programs) }
    {
        match &self.plan {
            Plan::Idle | Plan::Rounds(_) => None,
            Plan::Schedule(items) => item_at(items.as_slice(), index),
        }
    }

    /// `count` turns of one actor.
    fn turn_times(&mut self, actor: u8, count: u64)
        requires left { length self.old.turns + count ≤ turn_count (length self.old.parts.lines.threads) self.old.parts.plan }
        requires actor { actor ≤ length self.old.parts.programs }
        ensures { self.new ≡ record self.old { turns = self.old.turns ++ replicate count actor } }
    {
        for made in 0..count {
            self.turn(actor);
        }
    }

    /// `rounds` rounds.
    fn run_rounds(&mut self, rounds: u64)
        requires begins { self.old.turns ≡ [] }
        requires rounds { rounds_of_plan self.old.parts.plan ≡ Some rounds }
        ensures { self.new ≡ record self.old { turns = rounds_of (length self.old.parts.lines.threads) rounds } }
    {
        for round in 0..rounds {
            self.run_round();
        }
    }

    /// One turn of each thread in order, and then one of the adapter.
    fn run_round(&mut self)
        requires { length self.old.turns + length self.old.parts.lines.threads + 1 ≤ turn_count (length self.old.parts.lines.threads) self.old.parts.plan }
        ensures { self.new ≡ record self.old { turns = self.old.turns ++ round_of (length self.old.parts.lines.threads) } }
    {
        for thread in 0..self.thread_count() {
            self.turn(thread + 1);
        }
        self.turn(ADAPTER);
    }

    /// How many threads there are.
    fn thread_count(&self) -> u8
        ensures programs { result ≡ length self.now.parts.programs }
        ensures threads { result ≡ length self.now.parts.lines.threads }
        ensures few { result ≤ 16 }
    {
        self.programs.len() as u8
    }

    /// The operations that the turns made, and the history that they spell.
    pub fn finish(self, alloc: Global) -> Result<Outcome, NoMemory>
        ensures { IfOk result (IsOutcome self.parts self.turns) }
    {
        // The history is legal, and so it is the one that the notes tell.
        ready();
        woven();
        run_is_bounded();
        stores_are_told();
        let first = self.first;
        let run = self.run;
        let trace = run.bus.into_trace();
        let log = run.log;
        let history = history_of(alloc, first, self.programs.as_slice(), log.notes())?;
        Ok(Outcome {
            trace,
            marks: log.into_marks(),
            history: Sequence::from_vec(history),
        })
    }
}

/// The item at a place, if there is one.
fn item_at(items: &[PlanItem], index: usize) -> Option<PlanItem>
    ensures { result ≡ slice_get items.now index }
{
    items.get(index).copied()
}
