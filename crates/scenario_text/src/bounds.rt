//! The limits of lines and of whole texts.
ghost use Rattle.std.specs.Prelude.{◌≡◌, ◌<◌, ◌==◌, ◌^◌, ◌-◌, ◌+◌, length, min};
ghost use Rattle.verbs_types.specs.declared.declaration.CqLine.{CqLine as TheCqLine};
ghost use Rattle.std.specs.List.{count_by, sum_by};
ghost use Rattle.scenario_text.specs.After as after;
ghost use Rattle.scenario_text.specs.Bounds as bounds;
ghost use Rattle.scenario_text.specs.Limits.{times_of};
ghost use Rattle.scenario_text.specs.Sofar.{view_of};
ghost use Rattle.scenario_text.specs.Text.{split};

use crate::fault::LimitName;
use crate::keyword::Keyword;
use crate::parts::Parts;
use crate::scenario::{Plan, PlanItem, ScenarioParts};
use crate::segment;
use crate::sofar::{Passed, Sofar};
use crate::values::{number, recv_log, size};
use actor_map::{notes, words};

/// The greatest start value.
const MAX_START: u64 = 1 << 32;

/// The most calls of a thread.
const MAX_CALLS: u64 = 65_536;

/// The most bytes of a segment, and of the segments of one receive together.
const MAX_LENGTH: u64 = 65_536;

/// The most turns of a plan.
const MAX_TURNS: u64 = 1_048_576;

/// The most words of the address map.
const MAX_WORDS: u64 = 1_048_576;

/// The greatest weight, which bounds how long a run may become.
const MAX_NOTES: u64 = 4_194_304;

/// A value, and from where to where it may be.
#[derive(Clone, Copy, Debug, PartialEq, Eq)]
pub struct Bound {
    pub name: LimitName,
    pub value: u64,
    pub least: u64,
    pub most: u64,
}

impl Bound {
    fn new(name: LimitName, value: u64, least: u64, most: u64) -> Bound
        ensures { result ≡ bounds.bound name value least most }
    {
        Bound {
            name,
            value,
            least,
            most,
        }
    }

    /// At most `most`, where there are `before` and one more.
    fn one_more(name: LimitName, before: usize, most: u64) -> Bound
        requires { before < 2 ^ 63 }
        ensures { result ≡ bounds.bound name (before + 1) 0 most }
    {
        Bound::new(name, before as u64 + 1, 0, most)
    }

    /// The limit, if it is passed.
    fn passed(self) -> Option<Passed>
        ensures { result ≡ bounds.passed_alone self }
    {
        if self.least <= self.value && self.value <= self.most {
            None
        } else {
            Some(Passed {
                name: self.name,
                value: self.value,
            })
        }
    }
}

impl Sofar {
    /// Notes the first limit that the line passes, from left to right.
    pub fn note_limits(&mut self, keyword: Keyword, line: &[u8])
        ensures { view_of self.new ≡ after.note_limits keyword (split 32 line.now) (view_of self.old) }
    {
        match keyword {
            Keyword::Eq => {
                let bound = Bound::one_more(LimitName::Objects, self.eqs.len(), 8);
                self.note(bound);
                self.note(Bound::new(LimitName::Log, number(line, 2), 1, 10));
            }
            Keyword::Pd => {
                let bound = Bound::one_more(LimitName::Objects, self.pds.len(), 64);
                self.note(bound);
            }
            Keyword::Cq => self.note_cq(line),
            Keyword::Qp => self.note_qp(line),
            Keyword::Thread => {
                let bound = Bound::one_more(LimitName::Threads, self.threads.len(), 16);
                self.note(bound);
            }
            Keyword::Post | Keyword::Recv => self.note_call(),
            Keyword::Item => {
                let bound = Bound::one_more(LimitName::List, self.requests.len(), 16);
                self.note(bound);
            }
            Keyword::Receive => self.note_receive(line),
            Keyword::Poll => {
                self.note_call();
                self.note(Bound::new(LimitName::Poll, number(line, 2), 1, 16));
            }
            Keyword::Drain => {
                self.note_call();
                self.note(Bound::new(LimitName::Drain, number(line, 2), 1, 65_536));
            }
            Keyword::Connect | Keyword::End | Keyword::Schedule | Keyword::Rounds => {}
        }
    }

    fn note_cq(&mut self, line: &[u8])
        ensures { view_of self.new ≡ after.note_limits Keyword.Cq (split 32 line.now) (view_of self.old) }
    {
        let ceiling = number(line, 3);
        let objects = Bound::one_more(LimitName::Objects, self.cqs.len(), 32);
        self.note(objects);
        self.note(Bound::new(LimitName::Log, number(line, 2), 1, ceiling.min(12)));
        self.note(Bound::new(LimitName::Log, ceiling, 1, 12));
        self.note(Bound::new(LimitName::Start, number(line, 5), 0, MAX_START));
    }

    fn note_qp(&mut self, line: &[u8])
        ensures { view_of self.new ≡ after.note_limits Keyword.Qp (split 32 line.now) (view_of self.old) }
    {
        let objects = Bound::one_more(LimitName::Objects, self.qps.len(), 64);
        self.note(objects);
        self.note(Bound::new(LimitName::Log, number(line, 5), 0, 8));
        self.note(Bound::new(LimitName::Log, recv_log(line), 0, 8));
        self.note(Bound::new(LimitName::Sges, number(line, 7), 1, 8));
        self.note(Bound::new(LimitName::Start, number(line, 8), 0, MAX_START));
    }

    fn note_receive(&mut self, line: &[u8])
        ensures { view_of self.new ≡ after.note_limits Keyword.Receive (split 32 line.now) (view_of self.old) }
    {
        let list = Bound::one_more(LimitName::List, self.receives.len(), 16);
        self.note(list);
        let most = u64::from(self.segments());
        self.note_segments(most, segment::fields(line));
    }

    /// Notes the limits of segments, of which a receive has at most `most`.
    fn note_segments(&mut self, most: u64, mut fields: Parts)
        requires few { length fields.left < 2 ^ 64 - 1 }
        ensures { view_of self.new ≡ record (view_of self.old) { passed = bounds.passed_after (view_of self.old).passed (bounds.segment_bounds most 1 0 fields.entry.left) } }
    {
        let mut place = 1;
        let mut before = 0;
        while let Some(field) = fields.next_part() {
            let length = segment::length(field);
            let total = length.saturating_add(before);
            self.note_segment(most, place, length, total);
            place += 1;
            before = total;
        }
    }

    fn note_segment(&mut self, most: u64, place: u64, length: u64, total: u64)
        ensures { view_of self.new ≡ record (view_of self.old) { passed = bounds.passed_after (view_of self.old).passed (bounds.one_segment most place length total) } }
    {
        self.note(Bound::new(LimitName::Sges, place, 0, most));
        self.note(Bound::new(LimitName::Length, length, 0, MAX_LENGTH));
        self.note(Bound::new(LimitName::Length, total, 0, MAX_LENGTH));
    }

    fn note_call(&mut self)
        ensures { view_of self.new ≡ record (view_of self.old) { passed = bounds.passed_by (view_of self.old).passed (bounds.calls_bound (view_of self.old)) } }
    {
        let bound = Bound::one_more(LimitName::Calls, self.calls.len(), MAX_CALLS);
        self.note(bound);
    }

    /// Notes the limit, if it is passed and none was passed before.
    fn note(&mut self, bound: Bound)
        ensures { view_of self.new ≡ record (view_of self.old) { passed = bounds.passed_by (view_of self.old).passed bound } }
    {
        if self.passed.is_none() {
            self.passed = bound.passed();
        }
    }

    /// The first limit that the lines pass, one by one and together.
    pub fn passed_in_lines(&mut self) -> Option<Passed>
        ensures passed { result ≡ bounds.passed_in_lines (view_of self.old) }
        ensures same { view_of self.new ≡ record (view_of self.old) { passed = result } }
    {
        self.note_events();
        let turns = self.turns();
        self.note(Bound::new(LimitName::Turns, turns, 0, MAX_TURNS));
        self.passed
    }

    /// An event queue holds two events of each of its completion queues.
    fn note_events(&mut self)
        ensures { view_of self.new ≡ record (view_of self.old) { passed = bounds.passed_after (view_of self.old).passed (bounds.event_bounds (view_of self.old).lines 0 (view_of self.old).lines.eqs) } }
    {
        for eq in 0..self.eqs.len() {
            let events = self.events_on(eq);
            let most = size(u64::from(self.eqs[eq].log));
            self.note(Bound::new(LimitName::Events, events, 0, most));
        }
    }

    fn events_on(&self, eq: usize) -> u64
        ensures { result ≡ bounds.events_on (view_of self.now).lines eq }
    {
        self.queues_on(eq) as u64 * 2
    }

    /// How many completion queues an event queue has.
    fn queues_on(&self, eq: usize) -> usize
        ensures { result ≡ count_by (λ (l : TheCqLine). l.eq == eq) (view_of self.now).lines.cqs }
    {
        self.cqs
            .iter()
            .filter(|line| line.eq as usize == eq)
            .count()
    }

    /// How many turns the plan has; past 2^64 - 1 there are 2^64 - 1.
    fn turns(&self) -> u64
        ensures { result ≡ (bounds.turns_bound (view_of self.now).lines (view_of self.now).plan).value }
    {
        match &self.plan {
            Plan::Idle => 0,
            Plan::Schedule(items) => turns_of(items.as_slice()),
            Plan::Rounds(rounds) => rounds.saturating_mul(self.threads.len() as u64 + 1),
        }
    }
}

/// The first limit that the run of a scenario passes.
pub fn passed_in_run(parts: &ScenarioParts) -> Option<Passed>
    ensures { result ≡ bounds.passed_in_run parts.now }
{
    let words = Bound::new(LimitName::Words, words(&parts.lines), 0, MAX_WORDS);
    let notes = Bound::new(
        LimitName::Notes,
        notes(&parts.lines, parts.programs.as_slice()),
        0,
        MAX_NOTES,
    );
    words.passed().or(notes.passed())
}

fn turns_of(items: &[PlanItem]) -> u64
    ensures { result ≡ min (sum_by times_of items.now) (2 ^ 64 - 1) }
{
    let mut turns: u64 = 0;
    for item in items {
        turns = turns.saturating_add(item.times.unwrap_or(1));
    }
    turns
}
