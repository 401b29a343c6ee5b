//! A queue pair as the adapter keeps it.
ghost use Rattle.std.specs.Prelude.{◌≡◌, ◌+◌, ◌-◌, ◌^◌, ◌<◌, ◌≤◌, ◌&&◌, nat_lt, Some, None, slice_index};
ghost use Rattle.bus_core.specs.Port.{Appends};
ghost use Rattle.bus_core.specs.declared.operation.BusEntry.{BusEntry};
ghost use Rattle.counted_ring.specs.Device.{reach};
ghost use Rattle.counted_ring.specs.DeviceView as tasks;
ghost use Rattle.counted_ring.specs.Place.{IsPlace};
ghost use Rattle.counted_ring.specs.Turn.{CanServe};
ghost use Rattle.device_engine.specs.Pair.{AtRead, CanLook, CanRead, Looks, Records, Reads, with_side};
ghost use Rattle.device_engine.specs.NextWork as told;

use crate::entry::{nop_cqe, wants_completion};
use crate::outcome::{NextWork, Outcome};
use actor_map::EntryNumbers;
use bus_core::{BusPort, Note, Step};
use counted_ring::{WqDevice, WqPlace, WqSeen};
use verbs_types::Queue;
use work_entries::SendWords;

/// A queue pair as the adapter keeps it.
#[derive(Drop)]
pub(crate) struct Pair {
    /// The device's side of its send queue.
    pub requests: WqDevice,
    /// Where the send queue lies.
    pub place: WqPlace,
    pub number: u32,
    /// The block index of the entry that is read next.
    pub next: u64,
    /// How many requests were taken.
    pub taken: u64,
    pub may_send: bool,
    /// The completion queue of the send queue.
    pub send_cq: u32,
}

impl Pair {
    /// Loads the register.
    pub fn look<P: BusPort>(&mut self, port: &mut P) -> NextWork
        requires look { CanLook self.old }
        requires port { CanServe self.old.requests.place (P.port port.old) }
        ensures { (e : BusEntry) × Appends (P.port port.old) (P.port port.new) e × Looks self.old self.new e result }
    {
        self.requests.begin_look();
        match self.requests.turn(port) {
            Step::Done(WqSeen::Same) => self.goes_on(),
            _ => NextWork::Record,
        }
    }

    /// Loads the record.
    pub fn record<P: BusPort>(&mut self, port: &mut P) -> NextWork
        requires look { CanLook self.old }
        requires port { CanServe self.old.requests.place (P.port port.old) }
        ensures { (e : BusEntry) × Appends (P.port port.old) (P.port port.new) e × Records self.old self.new e result }
    {
        self.requests.begin_record();
        self.requests.turn(port);
        self.goes_on()
    }

    /// Reads one word more of the next entry. With the last one the request is taken.
    pub fn read<P: BusPort>(&mut self, port: &mut P) -> Outcome
        requires read { CanRead self.old }
        requires port { CanServe self.old.requests.place (P.port port.old) }
        ensures { (e : BusEntry) × Appends (P.port port.old) (P.port port.new) e × Reads self.old self.new e result }
    {
        self.begin_read();
        match entry_of(self.requests.turn(port)) {
            Some(entry) => self.take(&entry.words),
            None => Outcome {
                comes: NextWork::Same,
                note: None,
            },
        }
    }

    /// Starts to read the next entry, where no word of it was read.
    fn begin_read(&mut self)
        requires task { AtRead self.old.requests.task }
        requires ready { 0 < self.old.requests.side.ready }
        requires index { self.old.requests.side.next < 2 ^ 62 }
        ensures { self.new ≡ with_side self.old self.old.requests.side (Some tasks.Read) }
    {
        if self.requests.is_idle() {
            self.requests.begin_read();
        }
    }

    /// What comes after the record: the next entry, if one is ready and the pair may send.
    fn goes_on(&self) -> NextWork
        requires { self.now.next ≡ self.now.requests.side.next }
        ensures { result ≡ told.comes_ready (self.now.may_send && nat_lt 0 self.now.requests.side.ready) }
    {
        if self.may_send && self.ready() > 0 {
            NextWork::Read
        } else {
            NextWork::Next
        }
    }

    /// How many blocks the record showed, from the entry on that is read next, or that was just read.
    fn ready(&self) -> u64
        ensures { result ≡ (self.now.requests.side.next + self.now.requests.side.ready) - self.now.next }
    {
        let shown = self.requests.seen().a;
        shown.saturating_sub(self.next)
    }

    /// Takes the request of these words.
    fn take(&mut self, words: &[u64; 32]) -> Outcome
        requires number { self.old.number < 2 ^ 24 }
        requires next { self.old.next < 2 ^ 61 }
        requires taken { self.old.taken < 2 ^ 61 }
        ensures told { result ≡ record { comes = told.comes_asked self.old words.now; note = Some (told.fetch_note self.old.number (self.old.taken + 1)) } }
        ensures pair { self.new ≡ record self.old {
          next = self.old.next + reach self.old.place ((self.old.requests.side.next + self.old.requests.side.ready) - self.old.next) (slice_index words.now 0);
          taken = self.old.taken + 1;
        } }
    {
        let comes = self.asked(words);
        self.next += self.blocks(words[0]);
        self.taken += 1;
        Outcome {
            comes,
            note: Some(fetch_note(self.number, self.taken)),
        }
    }

    /// What the request asks for.
    fn asked(&self, words: &[u64; 32]) -> NextWork
        requires { self.now.number < 2 ^ 24 }
        ensures { result ≡ told.comes_asked self.now words.now }
    {
        if wants_completion(words) {
            NextWork::Publish {
                cq: self.send_cq,
                completion: nop_cqe(self.number, self.next),
            }
        } else {
            NextWork::Next
        }
    }

    /// How many blocks the entry of this first word has, of those that were ready.
    fn blocks(&self, first: u64) -> u64
        ensures blocks { result ≡ reach self.now.place ((self.now.requests.side.next + self.now.requests.side.ready) - self.now.next) first }
        ensures few { result ≤ 4 }
    {
        let span = self.place.span(first) as u64;
        let ready = self.ready();
        if ready < span { ready } else { span }
    }
}

/// The entry that an answer to a read gives.
fn entry_of(answer: Step<(), WqSeen>) -> Option<SendWords>
    ensures { result ≡ told.entry_of answer }
{
    match answer {
        Step::Done(WqSeen::Read(entry)) => Some(entry),
        _ => None,
    }
}

/// The note of a fetch, from the send queue of a queue pair.
fn fetch_note(qp: u32, number: u64) -> Note
    requires { qp < 2 ^ 24 }
    ensures { result ≡ told.fetch_note qp number }
{
    let numbers = EntryNumbers::Fetch {
        queue: Queue::Send(qp),
        number,
        seen: number,
    };
    numbers.note()
}
