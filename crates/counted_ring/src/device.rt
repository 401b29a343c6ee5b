//! The user of a queue that reads what was posted.
ghost use Rattle.std.specs.Prelude.{◌≡◌, ◌<◌, ◌+◌, ◌^◌, ◌↔◌, IsTrue, IsSome, Some, None, true, false, []};
ghost use Rattle.bus_core.specs.Port.{Appends};
ghost use Rattle.bus_core.specs.declared.operation.BusEntry.{BusEntry};
ghost use Rattle.bus_core.specs.Turn.{IsWhole, count_note};
ghost use Rattle.counted_ring.specs.Place.{IsPlace, is_send};
ghost use Rattle.counted_ring.specs.Device.{passed};
ghost use Rattle.counted_ring.specs.DeviceView.{DeviceTurn, Look, Record, Read};
ghost use Rattle.counted_ring.specs.Turn.{CanServe};

use crate::place::{WqPlace, shown};
use bus_core::{BusPort, Note, Step};
use std::marker::Model;
use work_entries::SendWords;

/// What a look, a load of the record or a read came to.
#[derive(Clone, Copy, Debug, PartialEq, Eq)]
pub enum WqSeen {
    /// The register is the one that was seen last, at first 0.
    Same,
    /// It is another one.
    Changed,
    /// The record shows `ready` blocks, from the next one to be read on.
    Count { ready: u32 },
    /// The next entry. Words past its blocks are 0.
    Read(SendWords),
}

/// What a device is at; `Reading` has the number of words read.
#[derive(Clone, Copy)]
enum Phase {
    Idle,
    Looking,
    Asking,
    Reading(u32),
}

/// Reads requests, one bus operation a turn: a look loads the register, a record loads the doorbell
/// record, and a read loads the words of the next entry in order, in as many blocks as its control
/// segment says, and none that the record did not show. So does an adapter of the Programmer's
/// Reference Manual.
#[derive(Drop)]
pub struct WqDevice {
    place: WqPlace,
    next: u64,
    ready: u32,
    register: u64,
    words: [u64; 32],
    phase: Phase,
}

impl Model for WqDevice {
    ghost use Rattle.counted_ring.specs.DeviceView.{DeviceView};

    ghost Value = { DeviceView };

    ghost use Rattle.counted_ring.specs.DeviceInside.{device_view, IsDevice};

    ghost view = { device_view };

    ghost invariant = { IsDevice };
}

impl WqDevice {
    /// An idle device of an empty queue, whose first block has the index `start`.
    pub fn new(at: WqPlace, start: u64) -> WqDevice
        requires place { IsPlace at }
        requires index { start < 2 ^ 62 }
        ensures { result ≡ record { place = at; side = record { next = start; ready = 0; register = 0; words = [] }; task = None } }
    {
        WqDevice {
            place: at,
            next: start,
            ready: 0,
            register: 0,
            words: [0; 32],
            phase: Phase::Idle,
        }
    }

    /// Starts to look at a send queue's register.
    pub fn begin_look(&mut self)
        requires idle { self.old.task ≡ None }
        requires send { is_send self.old.place ≡ true }
        ensures { self.new ≡ record self.old { task = Some Look } }
    {
        self.phase = Phase::Looking;
    }

    /// Starts to load the record.
    pub fn begin_record(&mut self)
        requires idle { self.old.task ≡ None }
        ensures { self.new ≡ record self.old { task = Some Record } }
    {
        self.phase = Phase::Asking;
    }

    /// Starts to read the next entry.
    pub fn begin_read(&mut self)
        requires idle { self.old.task ≡ None }
        requires ready { 0 < self.old.side.ready }
        requires index { self.old.side.next < 2 ^ 62 }
        ensures { self.new ≡ record self.old { task = Some Read } }
    {
        self.words = [0; 32];
        self.phase = Phase::Reading(0);
    }

    /// Passes the next receive without a load of it, as one that is flushed. It makes no operation.
    pub fn pass(&mut self)
        requires idle { self.old.task ≡ None }
        requires receive { is_send self.old.place ≡ false }
        requires ready { 0 < self.old.side.ready }
        requires index { self.old.side.next < 2 ^ 62 }
        ensures { self.new ≡ record self.old { side = passed self.old.side } }
    {
        self.next += 1;
        self.ready -= 1;
    }

    /// Whether nothing is under way.
    pub fn is_idle(&self) -> bool
        ensures { IsTrue result ↔ (self.now.task ≡ None) }
    {
        matches!(self.phase, Phase::Idle)
    }

    /// Up to which block index the last record showed the queue as posted, in field `a`; the start
    /// before the first.
    pub fn seen(&self) -> Note
        ensures { result ≡ count_note (self.now.side.next + self.now.side.ready) }
    {
        Note {
            kind: 0,
            object: 0,
            a: self.next + self.ready as u64,
            b: 0,
            c: 0,
            d: 0,
        }
    }

    /// Makes one operation.
    pub fn turn<P: BusPort>(&mut self, port: &mut P) -> Step<(), WqSeen>
        requires busy { IsSome self.old.task }
        requires port { CanServe self.old.place (P.port port.old) }
        ensures made { (e : BusEntry) × Appends (P.port port.old) (P.port port.new) e × DeviceTurn self.old self.new e result }
        ensures whole { IsWhole result }
    {
        match self.phase {
            Phase::Idle => unreachable!(),
            Phase::Looking => {
                let Some(register) = self.place.reg else {
                    unreachable!()
                };
                let word = port.load(register);
                let same = word == self.register;
                self.register = word;
                self.phase = Phase::Idle;
                if same {
                    Step::Done(WqSeen::Same)
                } else {
                    Step::Done(WqSeen::Changed)
                }
            }
            Phase::Asking => {
                self.ready = shown(self.next, port.load(self.place.dbr));
                self.phase = Phase::Idle;
                Step::Done(WqSeen::Count { ready: self.ready })
            }
            Phase::Reading(loaded) => {
                let address = self.place.word_at(self.next, loaded);
                self.words[loaded as usize] = port.load(address);
                let blocks = self.place.reach(self.ready, self.words[0]);
                if loaded + 1 == blocks * self.place.stride {
                    self.next += blocks as u64;
                    self.ready -= blocks;
                    self.phase = Phase::Idle;
                    Step::Done(WqSeen::Read(SendWords {
                        blocks,
                        words: self.words,
                    }))
                } else {
                    self.phase = Phase::Reading(loaded + 1);
                    Step::More
                }
            }
        }
    }
}
