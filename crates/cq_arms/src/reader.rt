//! The side that counts the events of a completion queue.
ghost use Rattle.std.specs.Prelude.{◌≡◌, ◌<◌, ◌^◌, ◌↔◌, IsTrue, false};
ghost use Rattle.bus_core.specs.Port.{Appends};
ghost use Rattle.bus_core.specs.declared.operation.BusEntry.{BusEntry};
ghost use Rattle.bus_core.specs.Turn.{IsWhole};
ghost use Rattle.cq_arms.specs.ReaderView.{ReaderTurn, counts};
ghost use Rattle.cq_arms.specs.Turn.{CanServe};

use crate::place::ArmPlace;
use bus_core::{BusPort, Step};
use std::marker::Model;
use verbs_types::EventRecord;

/// The arm sequence number that was stored: so many completion events of the queue were taken.
#[derive(Clone, Copy, Debug, PartialEq, Eq)]
pub struct Raised {
    pub number: u64,
}

/// Counts the completion events that the reader of an event queue took for one completion queue, as
/// the rdma-core mlx5 provider does: a store of the arm sequence number each, made after the whole
/// entry was read. Its only writer does not load the number, and sees no count of another side.
#[derive(Drop)]
pub struct EventReader {
    place: ArmPlace,
    taken: u64,
    raising: bool,
}

impl Model for EventReader {
    ghost use Rattle.cq_arms.specs.ReaderView.{ReaderView};

    ghost Value = { ReaderView };

    ghost use Rattle.cq_arms.specs.ReaderInside.{reader_view, IsReader};

    ghost view = { reader_view };

    ghost invariant = { IsReader };
}

impl EventReader {
    /// An idle reader that took no event.
    pub fn new(at: ArmPlace) -> EventReader
        ensures { result ≡ record { place = at; side = record { taken = 0 }; raising = false } }
    {
        EventReader {
            place: at,
            taken: 0,
            raising: false,
        }
    }

    /// Starts to count an event that was taken. Only a completion event of this queue counts; after
    /// any other the reader is still idle.
    pub fn begin_count(&mut self, event: EventRecord)
        requires idle { self.old.raising ≡ false }
        requires count { self.old.side.taken < 2 ^ 62 }
        ensures { self.new ≡ record self.old { raising = counts self.old.place event } }
    {
        self.raising = self.place.is_completion_of(event);
    }

    /// Whether nothing is under way.
    pub fn is_idle(&self) -> bool
        ensures { IsTrue result ↔ (self.now.raising ≡ false) }
    {
        !self.raising
    }

    /// Drops an event that was to be counted: the reader is idle, and the event is not taken.
    pub fn forget(&mut self)
        ensures { self.new ≡ record self.old { raising = false } }
    {
        self.raising = false;
    }

    /// Makes one operation, the store of the sequence number, and is idle.
    pub fn turn<P: BusPort>(&mut self, port: &mut P) -> Step<(), Raised>
        requires busy { IsTrue self.old.raising }
        requires port { CanServe self.old.place (P.port port.old) }
        ensures made { (e : BusEntry) × Appends (P.port port.old) (P.port port.new) e × ReaderTurn self.old self.new e result }
        ensures whole { IsWhole result }
    {
        self.taken += 1;
        self.raising = false;
        port.store(self.place.sn, self.taken);
        Step::Done(Raised { number: self.taken })
    }
}
