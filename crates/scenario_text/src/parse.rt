//! From a text to a scenario.
ghost use Rattle.std.specs.Prelude.{◌≡◌, ◌≤◌, IfOk, IfErr, length, Ok, Err};
ghost use Rattle.std.specs.Prelude.{IsTrue};
ghost use Rattle.verbs_types.specs.Lines.{is_declared};
ghost use Rattle.scenario_text.specs.Whole.{EndsDeclared, HasFault, Says, end_of, nothing_said, parts_said};
ghost use Rattle.scenario_text.specs.Sofar.{view_of};

use crate::bounds::passed_in_run;
use crate::fault::{LimitName, ScenarioFault, TextRule};
use crate::keyword::Section;
use crate::names::{Meaning, Names};
use crate::parts::{LINE_END, cut};
use crate::scenario::{Plan, Scenario, ScenarioParts};
use crate::sofar::{Passed, Place, Sofar};
use std::alloc::{AllocError, Global};
use verbs_types::{Declared, Lines, Sequence};

/// The most bytes of a text.
const MAX_TEXT: usize = 4_194_304;

/// The scenario that the text spells, or the first line that breaks a rule with the first rule that it breaks,
/// or the first limit that the text passes with the value that passes it.
pub fn parse_scenario(alloc: Global, text: &[u8]) -> Result<Scenario, ScenarioFault>
    ensures found { IfOk result (Says text.now) }
    ensures fault { IfErr result (HasFault text.now) }
{
    if text.len() > MAX_TEXT {
        return Err(ScenarioFault::Limit {
            name: LimitName::Text,
            value: 4_194_305,
        });
    }
    let parts = read_parts(alloc, text)?;
    Ok(Scenario::new(parts.lines, parts.programs, parts.plan))
}

/// Reads all lines.
fn read_parts(alloc: Global, text: &[u8]) -> Result<ScenarioParts, ScenarioFault>
    requires short { length text.now ≤ 4194304 }
    ensures found { IfOk result (Says text.now) }
    ensures fault { IfErr result (HasFault text.now) }
{
    let mut sofar = Sofar::new(alloc)?;
    let mut rest = text;
    while !rest.is_empty() {
        let (line, after) = cut(rest, LINE_END);
        if let Some(why) = sofar.fault(line) {
            return Err(malformed(sofar.count + 1, why));
        }
        match after {
            Some(after) => {
                sofar.add(alloc, line)?;
                rest = after;
            }
            None => return Err(malformed(sofar.count + 1, TextRule::Missing)),
        }
    }
    sofar.finish()
}

fn malformed(line: u32, why: TextRule) -> ScenarioFault
    ensures { result ≡ ScenarioFault.Malformed line why }
{
    ScenarioFault::Malformed { line, why }
}

fn limit(passed: Passed) -> ScenarioFault
    ensures { result ≡ ScenarioFault.Limit passed.name passed.value }
{
    ScenarioFault::Limit {
        name: passed.name,
        value: passed.value,
    }
}

impl Sofar {
    /// Before the first line nothing is said but the names that are taken from the start.
    fn new(alloc: Global) -> Result<Sofar, AllocError>
        ensures { IfOk result (λ s. view_of s ≡ nothing_said) }
    {
        let mut names = Names::new(alloc);
        names.give(alloc, b"dev", Meaning::Actor(0))?;
        names.give(alloc, b"ctl", Meaning::Taken)?;
        names.give(alloc, b"main", Meaning::Taken)?;
        Ok(Sofar {
            count: 0,
            section: Section::Objects,
            names,
            eqs: Vec::new(alloc),
            pds: Vec::new(alloc),
            cqs: Vec::new(alloc),
            qps: Vec::new(alloc),
            order: Vec::new(alloc),
            connects: Vec::new(alloc),
            threads: Vec::new(alloc),
            pairs: Vec::new(alloc),
            queues: Vec::new(alloc),
            programs: Vec::new(alloc),
            place: Place::Outside,
            calls: Vec::new(alloc),
            requests: Vec::new(alloc),
            receives: Vec::new(alloc),
            plan: Plan::Idle,
            passed: None,
        })
    }

    /// What all lines together say.
    fn finish(mut self) -> Result<ScenarioParts, ScenarioFault>
        requires declared { EndsDeclared (view_of self) }
        ensures found { IfOk result (λ parts. end_of (view_of self) ≡ Ok parts) }
        ensures fault { IfErr result (λ fault. end_of (view_of self) ≡ Err fault) }
    {
        if self.place != Place::Outside {
            return Err(malformed(self.count, TextRule::Missing));
        }
        if let Some(passed) = self.passed_in_lines() {
            return Err(limit(passed));
        }
        let parts = self.into_parts();
        match passed_in_run(&parts) {
            Some(passed) => Err(limit(passed)),
            None => Ok(parts),
        }
    }

    fn into_parts(self) -> ScenarioParts
        requires declared { IsTrue (is_declared (view_of self).lines) }
        ensures { result ≡ parts_said (view_of self) }
    {
        let lines = Lines {
            eqs: Sequence::from_vec(self.eqs),
            pds: Sequence::from_vec(self.pds),
            cqs: Sequence::from_vec(self.cqs),
            qps: Sequence::from_vec(self.qps),
            order: Sequence::from_vec(self.order),
            connects: Sequence::from_vec(self.connects),
            threads: Sequence::from_vec(self.threads),
        };
        ScenarioParts {
            lines: Declared::new(lines).unwrap(),
            programs: Sequence::from_vec(self.programs),
            plan: self.plan,
        }
    }
}
