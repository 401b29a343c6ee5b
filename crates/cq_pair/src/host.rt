//! The side of a completion queue that polls.
ghost use Rattle.std.specs.Prelude.{◌≡◌, ◌<◌, ◌^◌, ◌↔◌, IsTrue, IsSome, Some, None};
ghost use Rattle.bus_core.specs.Port.{Appends};
ghost use Rattle.bus_core.specs.declared.operation.BusEntry.{BusEntry};
ghost use Rattle.bus_core.specs.Turn.{IsWhole, count_note};
ghost use Rattle.owner_ring.specs.Place.{IsPlace};
ghost use Rattle.owner_ring.specs.Consumer.{Waiting, KnowsLess, next_index};
ghost use Rattle.owner_ring.specs.Turn.{CanServe};
ghost use Rattle.cq_pair.specs.Place.{ring_of};
ghost use Rattle.cq_pair.specs.HostInside.{IsAnswerTo};
ghost use Rattle.cq_pair.specs.HostView.{HostTurn, PollOne, Acknowledgement, forgotten};

use crate::place::CqPlace;
use bus_core::{BusPort, Note, Step};
use cqe_format::{Cqe, decode_cqe};
use owner_ring::{RingConsumer, Taken};
use std::marker::Model;

/// What a poll of one completion or an acknowledgement came to.
#[derive(Clone, Copy, Debug, PartialEq, Eq)]
pub enum CqDone {
    /// This completion was taken.
    Took(Cqe),
    /// Nothing was taken: software does not own the entry of this index, by its last word.
    Empty { index: u64, word: u64 },
    /// The completions below this index were acknowledged.
    Acked { ci: u64 },
}

/// What is taken instead of a completion where eight words spell none. No adapter that keeps its
/// rule publishes such words.
const NO_COMPLETION: Cqe = Cqe {
    opcode: 0,
    sop: 0,
    qpn: 0,
    srqn: 0,
    imm: 0,
    len: 0,
    counter: 0,
    syndrome: 0,
    solicited: false,
    format: 0,
};

/// Polls a completion queue, one bus operation a turn, as the rdma-core mlx5 provider does: a load
/// of an entry's last word, and where software owns it the loads of words 0 to 6. An
/// acknowledgement is one store of the consumer index.
#[derive(Drop)]
pub struct CqHost {
    place: CqPlace,
    ring: RingConsumer,
}

impl Model for CqHost {
    ghost use Rattle.cq_pair.specs.HostInside.{IsAnswerTo};
    ghost use Rattle.cq_pair.specs.HostView.{HostView};

    ghost Value = { HostView };

    ghost use Rattle.cq_pair.specs.HostInside.{host_view, IsHost};

    ghost view = { host_view };

    ghost invariant = { IsHost };
}

impl CqHost {
    /// An idle host of a queue whose first completion has the index `start`.
    pub fn new(at: CqPlace, start: u64) -> CqHost
        requires { IsPlace (ring_of at) }
        ensures { result ≡ record { place = at; side = Waiting start start; task = None; seen = 0 } }
    {
        CqHost {
            place: at,
            ring: RingConsumer::new(at.ring(), start),
        }
    }

    /// Starts to take the completion after the one that was taken last.
    pub fn begin_poll_one(&mut self)
        requires idle { self.old.task ≡ None }
        requires index { next_index self.old.side < 2 ^ 62 }
        ensures { self.new ≡ record self.old { task = Some PollOne } }
    {
        self.ring.begin_take();
    }

    /// Starts to acknowledge what was taken.
    pub fn begin_ack(&mut self)
        requires idle { self.old.task ≡ None }
        ensures { self.new ≡ record self.old { task = Some Acknowledgement } }
    {
        self.ring.begin_ack();
    }

    /// Whether nothing is under way.
    pub fn is_idle(&self) -> bool
        ensures { IsTrue result ↔ (self.now.task ≡ None) }
    {
        self.ring.is_idle()
    }

    /// Up to which index the last owner word showed the queue as published, in field `a`; 0 before
    /// the first. An acknowledgement leaves it.
    pub fn seen(&self) -> Note
        ensures { result ≡ count_note self.now.seen }
    {
        self.ring.seen()
    }

    /// Drops what is under way and what was taken since the last acknowledgement: the host is idle,
    /// and takes those completions again.
    pub fn forget(&mut self)
        ensures value { self.new ≡ forgotten self.old }
        ensures less { KnowsLess self.new.side self.old.side }
    {
        self.ring.forget();
    }

    /// Makes one operation.
    pub fn turn<P: BusPort>(&mut self, port: &mut P) -> Step<(), CqDone>
        requires busy { IsSome self.old.task }
        requires port { CanServe (ring_of self.old.place) (P.port port.old) }
        ensures made { (e : BusEntry) × Appends (P.port port.old) (P.port port.new) e × HostTurn self.old self.new e result }
        ensures whole { IsWhole result }
    {
        answered(self.ring.turn(port))
    }
}

/// The queue's answer to the ring's.
fn answered(answer: Step<(), Taken>) -> Step<(), CqDone>
    ensures { IsAnswerTo answer result }
{
    match answer {
        Step::Done(Taken::Entry { words, .. }) => {
            Step::Done(CqDone::Took(decode_cqe(&words).unwrap_or(NO_COMPLETION)))
        }
        Step::Done(Taken::Empty { index, word }) => Step::Done(CqDone::Empty { index, word }),
        Step::Done(Taken::Acked { ci }) => Step::Done(CqDone::Acked { ci }),
        Step::More | Step::Gave(()) => Step::More,
    }
}
