//! The side of a completion queue that publishes.
ghost use Rattle.std.specs.Prelude.{◌≡◌, ◌<◌, ◌^◌, ◌↔◌, IsTrue, IsSome, Some, None};
ghost use Rattle.bus_core.specs.Port.{Appends};
ghost use Rattle.bus_core.specs.declared.operation.BusEntry.{BusEntry};
ghost use Rattle.bus_core.specs.Turn.{IsWhole, count_note};
ghost use Rattle.cqe_format.specs.Completion.{IsCompletion};
ghost use Rattle.owner_ring.specs.Place.{IsPlace};
ghost use Rattle.owner_ring.specs.Producer.{next_index};
ghost use Rattle.owner_ring.specs.Turn.{CanServe};
ghost use Rattle.cq_pair.specs.Law.{fresh_device};
ghost use Rattle.cq_pair.specs.Place.{ring_of};
ghost use Rattle.cq_pair.specs.DeviceView.{DeviceTurn};

use crate::place::CqPlace;
use bus_core::{BusPort, Note, Step};
use cqe_format::{Cqe, encode_cqe};
use owner_ring::{Published, RingProducer};
use std::marker::Model;
use std::snapshot::Snapshot;

/// What a publication came to.
#[derive(Clone, Copy, Debug, PartialEq, Eq)]
pub enum CqSeen {
    /// The completion was published at this index.
    Published { index: u64 },
    /// The queue was full for the first time, and nothing was stored: `index` was to be published,
    /// and the consumer index that was loaded stands for `ci`. No completion is published any more.
    Overrun { index: u64, ci: u64 },
    /// The queue has overrun before, and the completion is dropped.
    Lost,
}

/// Publishes completions, one bus operation a turn: a load of the consumer index, and where that
/// leaves room the stores of words 0 to 7 of an entry, in order. The last one publishes, as the
/// Programmer's Reference Manual has it.
#[derive(Drop)]
pub struct CqDevice {
    place: CqPlace,
    ring: RingProducer,
    overrun: bool,
    completion: Option<Snapshot<Cqe>>,
}

impl Model for CqDevice {
    ghost use Rattle.cq_pair.specs.DeviceView.{DeviceView};

    ghost Value = { DeviceView };

    ghost use Rattle.cq_pair.specs.DeviceInside.{device_view, IsDevice};

    ghost view = { device_view };

    ghost invariant = { IsDevice };
}

impl CqDevice {
    /// An idle device of a queue whose first completion has the index `start`.
    pub fn new(at: CqPlace, start: u64) -> CqDevice
        requires { IsPlace (ring_of at) }
        ensures { result ≡ record { place = at; side = fresh_device start; task = None } }
    {
        CqDevice {
            place: at,
            ring: RingProducer::new(at.ring(), start),
            overrun: false,
            completion: None,
        }
    }

    /// Starts to publish a completion.
    pub fn begin_publish(&mut self, c: Cqe)
        requires idle { self.old.task ≡ None }
        requires index { next_index self.old.side.producer < 2 ^ 62 }
        requires completion { IsCompletion c }
        ensures { self.new ≡ record self.old { task = Some c } }
    {
        self.completion = Some(Snapshot::of(&c));
        if !self.overrun {
            self.ring.begin_publish(encode_cqe(&c));
        }
    }

    /// Whether no publication is under way.
    pub fn is_idle(&self) -> bool
        ensures { IsTrue result ↔ (self.now.task ≡ None) }
    {
        self.completion.is_none()
    }

    /// The consumer index that the last publication saw, in field `a`; before the first one the
    /// index of the first completion.
    pub fn seen(&self) -> Note
        ensures { result ≡ count_note self.now.side.seen }
    {
        self.ring.seen()
    }

    /// Makes one operation.
    pub fn turn<P: BusPort>(&mut self, port: &mut P) -> Step<(), CqSeen>
        requires busy { IsSome self.old.task }
        requires port { CanServe (ring_of self.old.place) (P.port port.old) }
        ensures made { (e : BusEntry) × Appends (P.port port.old) (P.port port.new) e × DeviceTurn self.old self.new e result }
        ensures whole { IsWhole result }
    {
        if self.overrun {
            port.load(self.place.dbr);
            self.completion = None;
            return Step::Done(CqSeen::Lost);
        }
        match self.ring.turn(port) {
            Step::Done(Published::At { index }) => {
                self.completion = None;
                Step::Done(CqSeen::Published { index })
            }
            Step::Done(Published::Full { index, ci }) => {
                self.overrun = true;
                self.completion = None;
                Step::Done(CqSeen::Overrun { index, ci })
            }
            Step::More | Step::Gave(()) => Step::More,
        }
    }
}
