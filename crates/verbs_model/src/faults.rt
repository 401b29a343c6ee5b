//! The first rule that an entry breaks.
ghost use Rattle.std.specs.Prelude.{◌≡◌, IsTrue};
ghost use Rattle.std.specs.List.{list_all};
ghost use Rattle.verbs_rules.specs.Rows as rows;
ghost use Rattle.verbs_rules.specs.Rules as rules;
ghost use Rattle.verbs_rules.specs.Step as step;
ghost use Rattle.verbs_model.specs.Tables.{state_of};

use crate::abstract_state::Abstract;
use crate::rules::{is_by, is_same};
use crate::work::{can_do, works};
use verbs_types::{Act, Completion, Entry, Queue, RuleName, What};

impl Abstract {
    /// The first rule that the entry breaks here, if any.
    pub(crate) fn first_fault(&self, e: &Entry) -> Option<RuleName>
        ensures { result ≡ step.first_fault (state_of self.now) e.now }
    {
        if !is_by(e.actor, &e.what) {
            Some(RuleName::Actor)
        } else if !self.has_objects(&e.what) {
            Some(RuleName::Object)
        } else {
            self.failing_need(&e.what)
        }
    }

    /// Whether each object that the entry names lives.
    fn has_objects(&self, what: &What) -> bool
        ensures { result ≡ rules.objects_live (state_of self.now) what.now }
    {
        match what {
            What::Post { queue, .. }
            | What::PostFull { queue, .. }
            | What::Retire { queue, .. }
            | What::Fetch { queue, .. } => self.has_queue(*queue),
            What::Ack { cq, .. } => self.has_completions(*cq),
            What::Poll {
                cq,
                completions,
                ..
            } => self.has_completions(*cq) && self.has_all_named(completions.as_slice()),
            What::Publish { cq, completion } => {
                self.has_completions(*cq) && self.has_named(completion)
            }
            _ => false,
        }
    }

    /// Whether the queue and the queue pair of a completion live.
    fn has_named(&self, completion: &Completion) -> bool
        ensures { result ≡ rules.names_living (state_of self.now) completion.now }
    {
        self.has_queue(completion.queue) && self.has_pair(completion.qp)
    }

    fn has_all_named(&self, completions: &[Completion]) -> bool
        ensures { result ≡ list_all (rules.names_living (state_of self.now)) completions.now }
    {
        completions
            .iter()
            .all(|completion| self.has_named(completion))
    }

    /// The first rule beside Actor and Object that the entry breaks.
    fn failing_need(&self, what: &What) -> Option<RuleName>
        requires { IsTrue (rules.objects_live (state_of self.now) what.now) }
        ensures { result ≡ rules.first_failing (step.needs (state_of self.now) what.now) }
    {
        match what {
            What::Post { queue, items } => self.queue(*queue).post_fault(*queue, items.as_slice()),
            What::PostFull {
                queue,
                pending,
                head,
                tail,
            } => self.queue(*queue).full_fault(*pending, *head, *tail),
            What::Poll {
                cq,
                max,
                completions,
            } => self
                .completions(*cq)
                .poll_fault(*max, completions.as_slice()),
            What::Retire { queue, count } => self.queue(*queue).retire_fault(*count),
            What::Ack { cq, index } => self.completions(*cq).ack_fault(*index),
            What::Fetch { queue, number } => self.fetch_fault(*queue, *number),
            What::Publish { cq, completion } => self.publish_fault(*cq, completion),
            _ => None,
        }
    }

    fn fetch_fault(&self, queue: Queue, number: u64) -> Option<RuleName>
        requires { IsTrue (rules.queue_lives (state_of self.now) queue) }
        ensures { result ≡ rules.first_failing (rows.fetch_needs (state_of self.now) queue number) }
    {
        if self.owed().is_some() {
            Some(RuleName::Hand)
        } else if !self.queue(queue).is_next(number) {
            Some(RuleName::Count)
        } else if !self.runs(queue, number) {
            Some(RuleName::Content)
        } else {
            None
        }
    }

    /// Whether the queue pair works and the adapter can do its request of this number.
    fn runs(&self, queue: Queue, number: u64) -> bool
        requires { IsTrue (rules.queue_lives (state_of self.now) queue) }
        ensures { result ≡ rows.runs (state_of self.now) queue number }
    {
        match queue {
            Queue::Send(qp) => {
                works(self.pair(qp).state) && can_do(self.queue(queue).item(number))
            }
            Queue::Recv(_) | Queue::Shared(_) => false,
        }
    }

    fn publish_fault(&self, cq: u32, completion: &Completion) -> Option<RuleName>
        requires { IsTrue ((state_of self.now).device.completions_live cq) }
        ensures { result ≡ rules.first_failing (rows.publish_needs (state_of self.now) cq completion.now) }
    {
        match self.owed() {
            Some(Act::Complete { cq: owner, owed }) if owner == cq => {
                if !self.completions(cq).has_room() {
                    Some(RuleName::Count)
                } else if !is_same(completion, &owed.completion) {
                    Some(RuleName::Content)
                } else {
                    None
                }
            }
            _ => Some(RuleName::Hand),
        }
    }
}
