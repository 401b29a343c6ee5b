//! The side of an event queue that writes.
ghost use Rattle.std.specs.Prelude.{◌≡◌, ◌<◌, ◌^◌, ◌↔◌, IsTrue, IsSome, Some, None};
ghost use Rattle.bus_core.specs.Port.{Appends};
ghost use Rattle.bus_core.specs.declared.operation.BusEntry.{BusEntry};
ghost use Rattle.bus_core.specs.Turn.{IsWhole, count_note};
ghost use Rattle.owner_ring.specs.Place.{IsPlace};
ghost use Rattle.owner_ring.specs.Turn.{CanServe};
ghost use Rattle.eq_pair.specs.Law.{fresh_writer};
ghost use Rattle.eq_pair.specs.Place.{ring_of};
ghost use Rattle.eq_pair.specs.DeviceView.{DeviceTurn};

use crate::place::EqPlace;
use bus_core::{BusPort, Note, Step};
use cqe_format::encode_eqe;
use owner_ring::RingProducer;
use std::marker::Model;
use std::snapshot::Snapshot;
use verbs_types::EventRecord;

/// Writes events, one bus operation a turn: the stores of words 0 to 7 of an entry, in order. The
/// last one, with the owner bit, publishes the event, as the Programmer's Reference Manual has it.
/// That the queue has room is up to the caller: this side looks at no consumer index.
#[derive(Drop)]
pub struct EqDevice {
    place: EqPlace,
    ring: RingProducer,
    event: Option<Snapshot<EventRecord>>,
}

impl Model for EqDevice {
    ghost use Rattle.eq_pair.specs.DeviceView.{DeviceView};

    ghost Value = { DeviceView };

    ghost use Rattle.eq_pair.specs.DeviceInside.{device_view, IsDevice};

    ghost view = { device_view };

    ghost invariant = { IsDevice };
}

impl EqDevice {
    /// An idle device of a queue to which no event was written.
    pub fn new(at: EqPlace) -> EqDevice
        requires { IsPlace (ring_of at) }
        ensures { result ≡ record { place = at; side = fresh_writer; task = None } }
    {
        EqDevice {
            place: at,
            ring: RingProducer::new(at.ring(), 0),
            event: None,
        }
    }

    /// Starts to write an event.
    pub fn begin_write(&mut self, e: EventRecord)
        requires idle { self.old.task ≡ None }
        requires index { self.old.side.index < 2 ^ 62 }
        ensures { self.new ≡ record self.old { task = Some e } }
    {
        self.event = Some(Snapshot::of(&e));
        self.ring.begin_write(encode_eqe(&e));
    }

    /// Whether no event is being written.
    pub fn is_idle(&self) -> bool
        ensures { IsTrue result ↔ (self.now.task ≡ None) }
    {
        self.event.is_none()
    }

    /// What its loads showed of the other side: nothing, since a writing loads no word.
    pub fn seen(&self) -> Note
        ensures { result ≡ count_note 0 }
    {
        Note {
            kind: 0,
            object: 0,
            a: 0,
            b: 0,
            c: 0,
            d: 0,
        }
    }

    /// Makes one operation.
    pub fn turn<P: BusPort>(&mut self, port: &mut P) -> Step<(), ()>
        requires busy { IsSome self.old.task }
        requires port { CanServe (ring_of self.old.place) (P.port port.old) }
        ensures made { (e : BusEntry) × Appends (P.port port.old) (P.port port.new) e × DeviceTurn self.old self.new e result }
        ensures whole { IsWhole result }
    {
        match self.ring.turn(port) {
            Step::Done(_) => {
                self.event = None;
                Step::Done(())
            }
            Step::More | Step::Gave(()) => Step::More,
        }
    }
}
