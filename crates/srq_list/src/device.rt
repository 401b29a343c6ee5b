//! The user of a shared receive queue that takes receives.
ghost use Rattle.std.specs.Prelude.{◌≡◌, ◌<◌, ◌^◌, ◌↔◌, IsTrue, true, false};
ghost use Rattle.bus_core.specs.Port.{Appends};
ghost use Rattle.bus_core.specs.declared.operation.BusEntry.{BusEntry};
ghost use Rattle.bus_core.specs.Turn.{IsWhole, count_note};
ghost use Rattle.srq_list.specs.Place.{IsPlace};
ghost use Rattle.srq_list.specs.DeviceView.{DeviceTurn, fresh};
ghost use Rattle.srq_list.specs.Turn.{CanServe};

use crate::place::{SrqPlace, record_of, shown};
use bus_core::{BusPort, Note, Step};
use std::marker::Model;

/// What a take came to.
#[derive(Clone, Copy, Debug, PartialEq, Eq)]
pub enum SrqTaken {
    /// The next receive lies at this slot. Words past its entry are 0.
    Taken { slot: u16, words: [u64; 16] },
    /// The record shows no receive that was not taken: it is this one, the low 16 bits of the queue's
    /// first count and the number of receives taken.
    NoneThere { count: u16 },
}

/// What a device is at; `Reading` has the number of words read.
#[derive(Clone, Copy)]
enum Phase {
    Idle,
    Asking,
    Fetching,
    Reading(u32),
}

/// Takes receives, one bus operation a turn: a load of the record, and where that shows a receive which
/// was not taken the loads of the index of the slot behind it and of its entry, in order. After a load of
/// the record that shows one, the take goes on. So does an adapter of the Programmer's Reference Manual.
#[derive(Drop)]
pub struct SrqDevice {
    place: SrqPlace,
    start: u64,
    taken: u64,
    slot: u16,
    next: u16,
    words: [u64; 16],
    phase: Phase,
    seen: u64,
}

impl Model for SrqDevice {
    ghost use Rattle.srq_list.specs.DeviceView.{DeviceView};

    ghost Value = { DeviceView };

    ghost use Rattle.srq_list.specs.DeviceInside.{device_view, IsDevice};

    ghost view = { device_view };

    ghost invariant = { IsDevice };
}

impl SrqDevice {
    /// An idle device of an empty queue, whose record counts from `start` on.
    pub fn new(at: SrqPlace, start: u64) -> SrqDevice
        requires { IsPlace at }
        ensures { result ≡ fresh at start }
    {
        SrqDevice {
            place: at,
            start,
            taken: 0,
            slot: 0,
            next: 0,
            words: [0; 16],
            phase: Phase::Idle,
            seen: 0,
        }
    }

    /// Starts to take the next receive.
    pub fn begin_take(&mut self)
        requires idle { self.old.busy ≡ false }
        requires count { self.old.side.taken < 2 ^ 62 }
        ensures { self.new ≡ record self.old { busy = true } }
    {
        self.words = [0; 16];
        self.phase = Phase::Asking;
    }

    /// Whether nothing is under way.
    pub fn is_idle(&self) -> bool
        ensures { IsTrue result ↔ (self.now.busy ≡ false) }
    {
        matches!(self.phase, Phase::Idle)
    }

    /// How many receives were posted, by the last load of the record, in field `a`; 0 before the first.
    /// They count from 0 whatever the queue's first count is.
    pub fn seen(&self) -> Note
        ensures { result ≡ count_note self.now.seen }
    {
        Note {
            kind: 0,
            object: 0,
            a: self.seen,
            b: 0,
            c: 0,
            d: 0,
        }
    }

    /// Makes one operation.
    pub fn turn<P: BusPort>(&mut self, port: &mut P) -> Step<(), SrqTaken>
        requires busy { self.old.busy ≡ true }
        requires port { CanServe self.old.place (P.port port.old) }
        ensures made { (e : BusEntry) × Appends (P.port port.old) (P.port port.new) e × DeviceTurn self.old self.new e result }
        ensures whole { IsWhole result }
    {
        match self.phase {
            Phase::Idle => unreachable!(),
            Phase::Asking => {
                let count = record_of(self.start, self.taken);
                let ready = shown(count, port.load(self.place.dbr));
                self.seen = self.taken + ready as u64;
                if ready == 0 {
                    self.phase = Phase::Idle;
                    Step::Done(SrqTaken::NoneThere { count })
                } else {
                    self.phase = Phase::Fetching;
                    Step::More
                }
            }
            Phase::Fetching => {
                let address = self.place.next_at(self.slot);
                self.next = self.place.next_of(port.load(address));
                self.phase = Phase::Reading(0);
                Step::More
            }
            Phase::Reading(loaded) => {
                let address = self.place.entry_at(self.slot, loaded);
                self.words[loaded as usize] = port.load(address);
                if loaded + 1 == self.place.entry_words() {
                    let slot = self.slot;
                    self.taken += 1;
                    self.slot = self.next;
                    self.phase = Phase::Idle;
                    Step::Done(SrqTaken::Taken {
                        slot,
                        words: self.words,
                    })
                } else {
                    self.phase = Phase::Reading(loaded + 1);
                    Step::More
                }
            }
        }
    }
}
