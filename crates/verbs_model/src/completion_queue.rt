//! A completion queue.
ghost use Rattle.std.specs.Prelude.{◌≡◌, ◌-◌, ◌^◌, ◌<◌, ◌≤◌, [], nat_lt, length, drop, take, OnOk, OnErr};
ghost use Rattle.verbs_rules.specs.Rows as rows;
ghost use Rattle.verbs_rules.specs.Rules.{first_failing};
ghost use Rattle.verbs_model.specs.Queues.{published_more};

use crate::rules::is_front;
use std::alloc::{AllocError, Global};
use std::marker::Model;
use verbs_types::{Completion, RuleName, Unpolled};

/// A completion queue: every completion that was written to it, and how many of them were polled and
/// acknowledged.
#[derive(Clone, Debug, Drop)]
pub(crate) struct CompletionQueue {
    size: u64,
    /// The index of the first completion.
    start: u64,
    published: Vec<Unpolled>,
    /// How many a poll took.
    polled: usize,
    /// How many the consumer index last stored is past the first.
    acked: usize,
}

impl Model for CompletionQueue {
    ghost use Rattle.verbs_rules.specs.OfOne.{CompletionQueue};

    ghost Value = { CompletionQueue };

    ghost use Rattle.verbs_model.specs.InsideCompletions.{seen, IsCounted};

    ghost view = { seen };

    ghost invariant = { IsCounted };
}

impl CompletionQueue {
    /// An empty queue of 2^`log` entries, whose first index is `start`.
    pub(crate) fn new(alloc: Global, log: u32, start: u64) -> CompletionQueue
        requires { log < 64 }
        ensures { result ≡ record { size = 2 ^ log; produced = start; acked = start; unpolled = [] } }
    {
        CompletionQueue {
            size: 1 << log,
            start,
            published: Vec::new(alloc),
            polled: 0,
            acked: 0,
        }
    }

    /// The completions that no poll took, the oldest first.
    pub(crate) fn unpolled(&self) -> &[Unpolled]
        ensures { result.now ≡ self.now.unpolled }
    {
        &self.published[self.polled..]
    }

    /// The first rule that is broken by a poll for at most `most` completions that took these.
    pub(crate) fn poll_fault(&self, most: u64, completions: &[Completion]) -> Option<RuleName>
        ensures { result ≡ first_failing (rows.poll_needs self.now most completions.now) }
    {
        let unpolled = self.unpolled();
        let count = (unpolled.len() as u64).min(most);
        if most < 1 || 16 < most || completions.len() as u64 != count {
            return Some(RuleName::Count);
        }
        if !is_front(completions, unpolled) {
            return Some(RuleName::Content);
        }
        None
    }

    /// The first rule that it breaks to store this consumer index.
    pub(crate) fn ack_fault(&self, index: u64) -> Option<RuleName>
        ensures { result ≡ first_failing (rows.ack_needs self.now index) }
    {
        let is_oldest = self.start <= index && index - self.start == self.polled as u64;
        (!is_oldest).then_some(RuleName::Count)
    }

    /// Whether one more completion may be written.
    pub(crate) fn has_room(&self) -> bool
        ensures { result ≡ nat_lt (self.now.produced - self.now.acked) self.now.size }
    {
        ((self.published.len() - self.acked) as u64) < self.size
    }

    /// Takes `count` from the front.
    pub(crate) fn poll(&mut self, count: usize)
        requires { count ≤ length self.old.unpolled }
        ensures { self.new ≡ record self.old { unpolled = drop count self.old.unpolled } }
    {
        self.polled += count;
    }

    /// Stores a consumer index, that of the oldest completion that no poll took.
    pub(crate) fn ack(&mut self, index: u64)
        requires { index ≡ self.old.produced - length self.old.unpolled }
        ensures { self.new ≡ record self.old { acked = index } }
    {
        self.acked = self.polled;
    }

    /// Appends a completion. Where memory runs out nothing has changed.
    pub(crate) fn publish(&mut self, completion: Unpolled) -> Result<(), AllocError>
        ensures made { OnOk result
            (self.new ≡ published_more self.old completion) }
        ensures unchanged { OnErr result (self.new ≡ self.old) }
    {
        self.published.push(completion)?;
        Ok(())
    }
}
