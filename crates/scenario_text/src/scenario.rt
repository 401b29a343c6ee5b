//! What a scenario says.
ghost use Rattle.std.specs.Prelude.{◌≡◌};
ghost use Rattle.scenario_text.specs.Whole.{IsScenario};
ghost use Rattle.scenario_text.specs.Running.{CanRun};

use std::marker::Model;
use verbs_types::{Call, Declared, Sequence};

/// An item of a schedule: this actor's turns.
#[derive(Clone, Copy, Debug, PartialEq, Eq)]
pub struct PlanItem {
    /// 0 for the adapter, else the number of a thread.
    pub actor: u8,
    /// How many turns; none written means one.
    pub times: Option<u64>,
}

/// Who makes the turns of a run, in order.
#[derive(Debug, Drop)]
pub enum Plan {
    /// Nobody makes one.
    Idle,
    /// These items, one after another.
    Schedule(Sequence<PlanItem>),
    /// This number of rounds, each one turn of every thread in order and then one of the adapter.
    Rounds(u64),
}

/// The objects, what each thread is to do, and whose turn it is.
#[derive(Debug, Drop)]
pub struct ScenarioParts {
    pub lines: Declared,
    /// The calls of each thread, in the order of the threads' names.
    pub programs: Sequence<Sequence<Call>>,
    pub plan: Plan,
}

/// A scenario of the grammar.
#[derive(Debug, Drop)]
pub struct Scenario {
    declared: Declared,
    programs: Sequence<Sequence<Call>>,
    plan: Plan,
}

impl Model for Scenario {
    ghost use Rattle.scenario_text.specs.declared.scenario.ScenarioParts.{ScenarioParts};

    ghost Value = { ScenarioParts };

    ghost use Rattle.scenario_text.specs.Whole.{IsScenario};

    ghost view = { λ s. record { lines = s.declared; programs = s.programs; plan = s.plan } };

    ghost invariant = { λ s. IsScenario (record { lines = s.declared; programs = s.programs; plan = s.plan }) };
}

impl Scenario {
    /// The scenario with these parts.
    pub(crate) fn new(
        declared: Declared,
        programs: Sequence<Sequence<Call>>,
        plan: Plan,
    ) -> Scenario
        requires scenario { IsScenario (record { lines = declared; programs = programs; plan = plan }) }
        ensures { result ≡ record { lines = declared; programs = programs; plan = plan } }
    {
        Scenario {
            declared,
            programs,
            plan,
        }
    }

    /// The declared objects.
    pub fn declared(&self) -> &Declared
        ensures lines { result.now ≡ self.now.lines }
        ensures said { IsScenario self.now }
        ensures scenario { CanRun self.now }
    {
        &self.declared
    }

    /// The calls of each thread, in the order of the threads' names.
    pub fn programs(&self) -> &[Sequence<Call>]
        ensures programs { result.now ≡ self.now.programs }
        ensures scenario { CanRun self.now }
    {
        self.programs.as_slice()
    }

    /// Whose turn it is.
    pub fn plan(&self) -> &Plan
        ensures plan { result.now ≡ self.now.plan }
        ensures scenario { CanRun self.now }
    {
        &self.plan
    }
}
