//! The state of verbs queues, as lists of objects.
ghost use Rattle.std.specs.Prelude.{◌≡◌, ◌+◌, ◌-◌, ◌*◌, ◌<◌, ◌≤◌, length, IsTrue, OnOk, OnErr};
ghost use Rattle.std.specs.Option.{option_to_list};
ghost use Rattle.verbs_rules.specs.OfOne.{queue_in, completions_in};
ghost use Rattle.verbs_rules.specs.Rules.{queue_lives};
ghost use Rattle.verbs_model.specs.Tables as tables;
ghost use Rattle.verbs_model.specs.Tables.{state_of};

use crate::completion_queue::CompletionQueue;
use crate::work_queue::WorkQueue;
use ends::place_of;
use std::marker::Model;
use verbs_types::{Act, FIRST_QP, Queue, QueuePair, Unpolled, is_among};

mod beginning;
mod ends;
mod steps;

pub use beginning::start;

/// The state of verbs queues.
#[derive(Clone, Debug, Drop)]
pub struct Abstract {
    /// The send queue of the queue pair at place i stands at 2i, its receive queue at 2i + 1.
    queues: Vec<WorkQueue>,
    pairs: Vec<QueuePair>,
    completions: Vec<CompletionQueue>,
    /// What the adapter owes for the work entry that it is in.
    owed: Option<Act>,
}

impl Model for Abstract {
    ghost use Rattle.verbs_model.specs.Tables.{Tables};

    ghost Value = { Tables };

    ghost use Rattle.verbs_model.specs.InsideAbstract.{tables, HasBothQueues};

    ghost view = { tables };

    ghost invariant = { HasBothQueues };
}

impl Abstract {
    /// Whether the queue pair lives.
    pub(crate) fn has_pair(&self, qp: u32) -> bool
        ensures { result ≡ (state_of self.now).device.pair_lives qp }
    {
        is_among(FIRST_QP, self.pairs.len(), qp)
    }

    /// Whether the queue lives.
    pub(crate) fn has_queue(&self, queue: Queue) -> bool
        ensures { result ≡ queue_lives (state_of self.now) queue }
    {
        match queue {
            Queue::Send(qp) | Queue::Recv(qp) => self.has_pair(qp),
            Queue::Shared(_) => false,
        }
    }

    /// Whether the completion queue lives.
    pub(crate) fn has_completions(&self, cq: u32) -> bool
        ensures { result ≡ (state_of self.now).device.completions_live cq }
    {
        is_among(0, self.completions.len(), cq)
    }

    /// A queue pair that lives.
    pub(crate) fn pair(&self, qp: u32) -> QueuePair
        requires { IsTrue ((state_of self.now).device.pair_lives qp) }
        ensures { result ≡ (state_of self.now).device.pairs qp }
    {
        self.pairs[(qp - FIRST_QP) as usize]
    }

    /// The place of a queue that lives.
    fn place(&self, queue: Queue) -> usize
        requires { IsTrue (queue_lives (state_of self.now) queue) }
        ensures place { result ≡ tables.place_of queue }
        ensures inside { result < length self.now.queues }
    {
        let place = place_of(queue);
        prove!(place < self.queues.len());
        place
    }

    /// A queue that lives.
    pub(crate) fn queue(&self, queue: Queue) -> &WorkQueue
        requires { IsTrue (queue_lives (state_of self.now) queue) }
        ensures { result.now.queue ≡ queue_in (state_of self.now) queue }
    {
        &self.queues[self.place(queue)]
    }

    /// A completion queue that lives.
    pub(crate) fn completions(&self, cq: u32) -> &CompletionQueue
        requires { IsTrue ((state_of self.now).device.completions_live cq) }
        ensures { result.now ≡ completions_in (state_of self.now) cq }
    {
        &self.completions[cq as usize]
    }

    /// The completions of a completion queue that no poll took, the oldest first.
    pub fn unpolled(&self, cq: u32) -> &[Unpolled]
        requires { IsTrue ((state_of self.now).device.completions_live cq) }
        ensures { result.now ≡ (state_of self.now).unpolled cq }
    {
        self.completions(cq).unpolled()
    }

    /// What the adapter owes next, if it is in a work entry that is not finished.
    pub fn owed(&self) -> Option<Act>
        ensures { option_to_list result ≡ (state_of self.now).device.owed }
    {
        self.owed
    }
}
