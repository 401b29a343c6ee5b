//! A send or receive queue.
ghost use Rattle.std.specs.Prelude.{◌≡◌, ◌==◌, ◌&&◌, ◌+◌, ◌-◌, ◌<◌, ◌≤◌, nat_le, length, slice_get, IfOk, OnOk, OnErr};
ghost use Rattle.std.specs.List.{list_all};
ghost use Rattle.std.specs.Option.{option_copied};
ghost use Rattle.verbs_rules.specs.Rows as rows;
ghost use Rattle.verbs_rules.specs.Rules.{first_failing};
ghost use Rattle.verbs_model.specs.Queues.{fresh_queue, posted_more, retired_to, taken_to, with_end};

use crate::rules::item_fits;
use std::alloc::{AllocError, Global};
use std::collections::VecDeque;
use std::marker::Model;
use verbs_types::{Item, Queue, RuleName};

/// A send or receive queue: all that was ever posted on it, and how far the adapter and the program have
/// come.
#[derive(Clone, Debug, Drop)]
pub(crate) struct WorkQueue {
    /// How many requests may be outstanding.
    room: u64,
    /// The most scatter/gather entries of one request.
    segments: u32,
    posted: Vec<Item>,
    /// How many the adapter took.
    taken: u64,
    /// How many the program was given back.
    retired: u64,
    /// The numbers, from 1, of the requests whose completion was polled and that are not yet retired.
    ends: VecDeque<u64>,
}

impl Model for WorkQueue {
    ghost use Rattle.verbs_model.specs.Held.{Held};

    ghost Value = { Held };

    ghost use Rattle.verbs_model.specs.Inside.{held};

    ghost view = { held };
}

impl WorkQueue {
    /// A queue of 2^`log` places in which nothing was posted.
    pub(crate) fn new(alloc: Global, log: u32, segments: u32) -> WorkQueue
        requires { log < 64 }
        ensures { result.queue ≡ fresh_queue log segments }
    {
        WorkQueue {
            room: 1 << log,
            segments,
            posted: Vec::new(alloc),
            taken: 0,
            retired: 0,
            ends: VecDeque::new(alloc),
        }
    }

    /// The first rule that a post of these items breaks.
    pub(crate) fn post_fault(&self, queue: Queue, items: &[Item]) -> Option<RuleName>
        ensures { result ≡ first_failing (rows.post_needs queue self.now.queue items.now) }
    {
        if !self.has_room(items.len()) {
            return Some(RuleName::Count);
        }
        if items.is_empty() || !self.fits(queue, items) {
            return Some(RuleName::Content);
        }
        None
    }

    /// Whether `count` more may be posted.
    fn has_room(&self, count: usize) -> bool
        ensures { result ≡ nat_le (length self.now.queue.posted + count - self.now.queue.retired) self.now.queue.room }
    {
        let posted = self.posted.len() as u128 + count as u128;
        posted.saturating_sub(self.retired as u128) <= self.room as u128
    }

    fn fits(&self, queue: Queue, items: &[Item]) -> bool
        ensures { result ≡ list_all (rows.item_fits queue self.now.queue.segments) items.now }
    {
        let segments = self.segments;
        items.iter().all(|item| item_fits(queue, segments, item))
    }

    /// The first rule that the entry breaks which says that the queue was full.
    pub(crate) fn full_fault(&self, pending: u64, head: u64, tail: u64) -> Option<RuleName>
        ensures { result ≡ first_failing (rows.full_needs self.now.queue pending head tail) }
    {
        let posted = self.posted.len() as u64;
        let is_full = posted.checked_add(pending) == Some(head)
            && tail == self.retired
            && head.saturating_sub(tail) == self.room;
        (!is_full).then_some(RuleName::Count)
    }

    /// The first rule that it breaks to retire up to this count.
    pub(crate) fn retire_fault(&self, count: u64) -> Option<RuleName>
        ensures { result ≡ first_failing (rows.retire_needs self.now.queue count) }
    {
        (self.ends.front() != Some(&count)).then_some(RuleName::Count)
    }

    /// Whether this is the number of the request that the adapter is to take next.
    pub(crate) fn is_next(&self, number: u64) -> bool
        ensures { result ≡ ((number == self.now.queue.taken + 1) && nat_le number (length self.now.queue.posted)) }
    {
        self.taken.checked_add(1) == Some(number) && number <= self.posted.len() as u64
    }

    /// The item of this number, counted from 1.
    pub(crate) fn item(&self, number: u64) -> Option<&Item>
        ensures { option_copied result ≡ slice_get self.now.queue.posted (number - 1) }
    {
        self.posted.get(number.saturating_sub(1) as usize)
    }

    /// Appends the items. Where memory runs out nothing has changed.
    pub(crate) fn post(&mut self, items: &[Item]) -> Result<(), AllocError>
        ensures made { OnOk result (self.new.queue ≡ posted_more self.old.queue items.now) }
        ensures unchanged { OnErr result (self.new.queue ≡ self.old.queue) }
    {
        self.posted.extend_with_clones(items)
    }

    /// Takes the oldest end, which is this count, and retires up to it.
    pub(crate) fn retire(&mut self, count: u64)
        ensures { self.new.queue ≡ retired_to self.old.queue count }
    {
        let _oldest = self.ends.pop_front();
        self.retired = count;
    }

    /// Notes that the adapter took the requests up to this number.
    pub(crate) fn take(&mut self, number: u64)
        ensures { self.new.queue ≡ taken_to self.old.queue number }
    {
        self.taken = number;
    }

    /// Makes room for `count` more ends.
    pub(crate) fn reserve_ends(&mut self, count: usize) -> Result<(), AllocError>
        ensures unchanged { self.new.queue ≡ self.old.queue }
        ensures room { OnOk result (count ≤ self.new.spare) }
        ensures kept { self.old.spare ≤ self.new.spare }
    {
        self.ends.reserve(count)
    }

    /// Adds the number of a request whose completion was polled.
    pub(crate) fn end(&mut self, number: u64)
        requires { 0 < self.old.spare }
        ensures queue { self.new.queue ≡ with_end self.old.queue number }
        ensures spare { self.new.spare + 1 ≡ self.old.spare }
    {
        self.ends.push_back_reserved(number);
    }
}
