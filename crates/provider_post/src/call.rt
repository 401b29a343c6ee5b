//! How far a call to post has come.
ghost use Rattle.std.specs.Prelude.{◌≡◌, ◌<◌, ◌^◌};
ghost use Rattle.provider_post.specs.Call as words;

use crate::answer::{PostAnswer, Room};
use crate::post_step::PostStep;
use bus_core::Step;
use counted_ring::Posted;

/// How far a call to post has come.
#[derive(Clone, Copy, Debug, PartialEq, Eq)]
pub struct Call {
    /// How many items it has.
    pub count: u32,
    /// How many of them the queue took.
    pub accepted: u32,
    /// Why it did not take the next one, where it was asked to.
    pub refused: Option<Room>,
    /// The record was stored.
    pub recorded: bool,
}

impl Call {
    /// Whether no more item is to be written.
    pub(crate) fn is_written(&self) -> bool
        ensures { result ≡ words.is_written self.now }
    {
        self.accepted == self.count || self.refused.is_some()
    }

    /// The place in the list of the item that is to be written next, if one is.
    pub(crate) fn next_item(&self) -> Option<u32>
        ensures { result ≡ words.next_to self.now }
    {
        if self.is_written() {
            None
        } else {
            Some(self.accepted)
        }
    }

    /// What an operation tells that the poster answered so.
    pub(crate) fn told(&self, answer: Step<(), Posted>) -> PostStep
        ensures { result ≡ words.told_by self.now answer }
    {
        if self.is_written() {
            if self.recorded {
                PostStep::Nothing
            } else {
                PostStep::Rang
            }
        } else {
            match answer {
                Step::Done(Posted::Wrote) => PostStep::Wrote,
                Step::Done(Posted::Full { head, tail }) => PostStep::Full { head, tail },
                Step::Done(Posted::Rung) | Step::More | Step::Gave(()) => PostStep::Nothing,
            }
        }
    }

    /// The call after an operation that told this.
    pub(crate) fn after(self, told: PostStep) -> Call
        requires { self.accepted < 2 ^ 31 }
        ensures { result ≡ words.call_after self told }
    {
        match told {
            PostStep::Nothing => self,
            PostStep::Wrote => Call {
                count: self.count,
                accepted: self.accepted + 1,
                refused: self.refused,
                recorded: self.recorded,
            },
            PostStep::Full { head, tail } => Call {
                count: self.count,
                accepted: self.accepted,
                refused: Some(Room::Full { head, tail }),
                recorded: self.recorded,
            },
            PostStep::Rang => Call {
                count: self.count,
                accepted: self.accepted,
                refused: self.refused,
                recorded: true,
            },
        }
    }

    /// Whether the operation between this and the next state of the call was its last: the register was
    /// stored, or the record of a queue that has no register, or there is nothing to ring for.
    fn is_last(&self, next: &Call, has_register: bool) -> bool
        ensures { result ≡ words.is_last has_register self.now next.now }
    {
        self.recorded
            || (next.recorded && !has_register)
            || (next.refused.is_some() && next.accepted == 0)
    }

    /// The call after an operation between this and its next state, if it goes on.
    pub(crate) fn left(&self, next: Call, has_register: bool) -> Option<Call>
        ensures { result ≡ words.left_after has_register self.now next }
    {
        if self.is_last(&next, has_register) {
            None
        } else {
            Some(next)
        }
    }

    /// What the call came to.
    fn answer(&self) -> PostAnswer
        ensures { result ≡ words.answer_of self.now }
    {
        match self.refused {
            None => PostAnswer::All {
                posted: self.accepted,
            },
            Some(why) => PostAnswer::Refused {
                bad: self.accepted,
                why,
            },
        }
    }
}

/// What a side answers to an operation that left so much of a call, which is now at `next`.
pub(crate) fn answer_with(left: Option<Call>, next: &Call) -> Step<(), PostAnswer>
    ensures { result ≡ words.answer_with left next.now }
{
    match left {
        None => Step::Done(next.answer()),
        Some(_) => Step::More,
    }
}
