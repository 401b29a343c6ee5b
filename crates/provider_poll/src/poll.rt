//! The side of a completion queue that a thread polls.
ghost use Rattle.std.specs.Prelude.{◌≡◌, ◌<◌, ◌≤◌, ◌+◌, ◌*◌, ◌^◌, ◌↔◌, IsTrue, IfOk, length};
ghost use Rattle.bus_core.specs.Port.{Appends};
ghost use Rattle.bus_core.specs.declared.operation.BusEntry.{BusEntry};
ghost use Rattle.verbs_types.specs.Lines.{is_among};
ghost use Rattle.actor_map.specs.Map.{map_of};
ghost use Rattle.actor_map.specs.Sizes.{words_of};
ghost use Rattle.owner_ring.specs.Consumer.{next_index};
ghost use Rattle.provider_poll.specs.declared.state.PollState.TheVariants.{Idle};
ghost use Rattle.provider_poll.specs.Fresh.{fresh_poll};
ghost use Rattle.provider_poll.specs.FollowsRule.{PollTurn, turns_left};
ghost use Rattle.provider_poll.specs.Poll.{CanPoll, LiesWithin, IsBusy, MayDrop, begun, forgotten};

use crate::answer::PollAnswer;
use crate::laws;
use crate::send_queues::SendQueues;
use crate::senders::fresh_queues;
use crate::state::PollState;
use crate::turns::{acknowledge, look, look_up, retire};
use actor_map::AddressMap;
use arrayvec::ArrayVec;
use bus_core::{BusPort, Note, Step};
use cq_pair::CqHost;
use object_places::completion_place;
use std::alloc::Global;
use std::marker::Model;
use std::mem;
use verbs_types::{Completion, Declared, NoMemory};

/// Polls a completion queue, one bus operation a turn. For each completion it loads the last word of the
/// next entry, and where software owns it words 0 to 6; then it looks the request up, by a load of the id
/// word and one of the head word of the completion's block. Where it has as many as were asked for, or
/// there is no more, it stores the tail of each completion's queue, one after another in the order of the
/// completions, and at last the consumer index; where it took none it stores nothing. So does the
/// rdma-core mlx5 provider.
#[derive(Drop)]
pub struct PollSide {
    /// The number of the completion queue.
    number: u32,
    host: CqHost,
    queues: SendQueues,
    state: PollState,
    noted: Option<Note>,
}

impl Model for PollSide {
    ghost use Rattle.provider_poll.specs.Poll.{PollView};

    ghost Value = { PollView };

    ghost use Rattle.provider_poll.specs.PollInside.{poll_view, IsPollSide};

    ghost view = { poll_view };

    ghost invariant = { IsPollSide };
}

impl PollSide {
    /// An idle side of the declared completion queue `object`, over the send queues that complete to it, in
    /// the order of their queue pairs' numbers.
    pub fn new(
        alloc: Global,
        d: &Declared,
        map: &AddressMap,
        object: u32,
    ) -> Result<PollSide, NoMemory>
        requires object { IsTrue (is_among 0 (length d.now.cqs) object) }
        requires map { map.now ≡ map_of d.now }
        requires fits { words_of d.now ≤ 2 ^ 20 }
        ensures fresh { IfOk result (λ side. side ≡ fresh_poll d.now object) }
        ensures within { IfOk result (LiesWithin (words_of d.now)) }
    {
        laws::lies_within();
        let queues = fresh_queues(alloc, d, map, object)?;
        let start = d.lines().cqs.as_slice()[object as usize].start;
        Ok(PollSide {
            number: object,
            host: CqHost::new(completion_place(d, map, object), start),
            queues,
            state: PollState::Idle,
            noted: None,
        })
    }

    /// Starts a poll of at most `max` completions, 1 to 16. It ends within 64 turns a completion and 64 more.
    pub fn begin_poll(&mut self, max: u32)
        requires idle { self.old.state ≡ Idle }
        requires some { 0 < max }
        requires few { max ≤ 16 }
        requires index { next_index self.old.host.side < 2 ^ 61 }
        ensures begun { self.new ≡ begun self.old max }
        ensures soon { turns_left self.new ≤ 64 * max + 64 }
    {
        self.state = PollState::Polling {
            max,
            ends: ArrayVec::new(),
        };
    }

    /// Whether no poll is under way.
    pub fn is_idle(&self) -> bool
        ensures { IsTrue result ↔ (self.now.state ≡ Idle) }
    {
        matches!(self.state, PollState::Idle)
    }

    /// The note of the last turn's operation, where it is one that makes a history entry: the last load of
    /// a poll, the store of a tail, or that of the consumer index.
    pub fn note(&self) -> Option<Note>
        ensures { result ≡ self.now.noted }
    {
        self.noted
    }

    /// Whether the poll that is under way, if any, stored nothing yet.
    pub fn may_forget(&self) -> bool
        ensures { IsTrue result ↔ MayDrop self.now.state }
    {
        !matches!(
            self.state,
            PollState::Retiring { .. } | PollState::Acking { .. }
        )
    }

    /// Drops a poll that stored nothing yet. The side is idle, and takes its completions again.
    pub fn forget(&mut self)
        requires { MayDrop self.old.state }
        ensures { self.new ≡ forgotten self.old }
    {
        self.host.forget();
        self.queues.forget();
        self.state = PollState::Idle;
        self.noted = None;
    }

    /// Makes one operation. Each leaves fewer turns of the poll, of which `begin_poll` says how many there are at
    /// most.
    pub fn turn<P: BusPort>(&mut self, port: &mut P) -> Step<Completion, PollAnswer>
        requires busy { IsBusy self.old.state }
        requires port { CanPoll self.old (P.port port.old) }
        ensures { (e : BusEntry) × Appends (P.port port.old) (P.port port.new) e × PollTurn self.old self.new e result }
    {
        match mem::replace(&mut self.state, PollState::Idle) {
            PollState::Idle => unreachable!(),
            PollState::Polling { max, ends } => {
                let turned = look(self.number, &mut self.host, &self.queues, max, ends, port);
                self.state = turned.state;
                self.noted = turned.noted;
                turned.answer
            }
            PollState::LookingUp {
                max,
                ends,
                completion,
                queue,
            } => {
                let seen = self.host.seen().a;
                let turned = look_up(
                    self.number,
                    seen,
                    &mut self.queues,
                    max,
                    ends,
                    completion,
                    queue,
                    port,
                );
                self.state = turned.state;
                self.noted = turned.noted;
                turned.answer
            }
            PollState::Retiring {
                taken,
                empty,
                mut left,
            } => {
                let first = left.remove(0);
                let turned = retire(&mut self.queues, taken, empty, first, left, port);
                self.state = turned.state;
                self.noted = turned.noted;
                turned.answer
            }
            PollState::Acking { taken, empty } => {
                let turned = acknowledge(self.number, &mut self.host, taken, empty, port);
                self.state = turned.state;
                self.noted = turned.noted;
                turned.answer
            }
        }
    }
}
