//! The user of a shared receive queue that posts.
ghost use Rattle.std.specs.Prelude.{◌≡◌, ◌+◌, ◌<◌, ◌^◌, ◌↔◌, IsTrue, IsSome, Some, None, take};
ghost use Rattle.bus_core.specs.Port.{Appends};
ghost use Rattle.bus_core.specs.declared.operation.BusEntry.{BusEntry};
ghost use Rattle.bus_core.specs.Turn.{IsWhole, count_note};
ghost use Rattle.srq_list.specs.Place.{IsPlace, entry_words};
ghost use Rattle.srq_list.specs.PosterView.{PosterTurn, Post, Doorbell, fresh, forgotten};
ghost use Rattle.srq_list.specs.Turn.{CanServe};

use crate::place::{SrqPlace, record_of};
use bus_core::{BusPort, Note, Step};
use std::marker::Model;

/// What a post or a ring came to.
#[derive(Clone, Copy, Debug, PartialEq, Eq)]
pub enum SrqPosted {
    /// The receive was written; the device does not know of it before a ring.
    Wrote,
    /// The record tells the device of all that was written.
    Rung,
    /// The head, this slot, is the only free one, and nothing was stored: the tail word that was loaded
    /// equals it.
    Full { at: u16 },
}

/// What a poster is at; `Storing` has the number of words stored.
#[derive(Clone, Copy)]
enum Phase {
    Idle,
    Asking,
    Following,
    Storing(u32),
    Naming,
    Recording,
}

/// Posts receives, one bus operation a turn: a load of the tail word, and where that is not the head a
/// load of the index of the slot behind the head, the stores of the receive's entry in order and the
/// store of its id. A ring stores the record: the 16 low bits of the count of receives. So does the
/// rdma-core mlx5 provider.
#[derive(Drop)]
pub struct SrqPoster {
    place: SrqPlace,
    start: u64,
    /// How many receives the last ring told the device of, and the slot behind theirs.
    rung: u64,
    first: u16,
    /// How many were written since, and the slot behind theirs.
    written: u64,
    head: u16,
    words: [u64; 16],
    id: u64,
    next: u16,
    phase: Phase,
    seen: u64,
}

impl Model for SrqPoster {
    ghost use Rattle.srq_list.specs.PosterView.{PosterView};

    ghost Value = { PosterView };

    ghost use Rattle.srq_list.specs.PosterInside.{poster_view, IsPoster};

    ghost view = { poster_view };

    ghost invariant = { IsPoster };
}

impl SrqPoster {
    /// An idle poster of an empty queue, whose record counts from `start` on. Its own counts are from 0
    /// whatever that is.
    pub fn new(at: SrqPlace, start: u64) -> SrqPoster
        requires { IsPlace at }
        ensures { result ≡ fresh at start }
    {
        SrqPoster {
            place: at,
            start,
            rung: 0,
            first: 0,
            written: 0,
            head: 0,
            words: [0; 16],
            id: 0,
            next: 0,
            phase: Phase::Idle,
            seen: 0,
        }
    }

    /// Starts to post a receive with this entry, which has the first `stride - 2` of these words, and
    /// with this id.
    pub fn begin_post(&mut self, words: [u64; 16], id: u64)
        requires idle { self.old.task ≡ None }
        requires count { self.old.side.rung + self.old.side.written < 2 ^ 62 }
        ensures { self.new ≡ record self.old { task = Some (Post (take (entry_words self.old.place) words) id) } }
    {
        self.words = words;
        self.id = id;
        self.phase = Phase::Asking;
    }

    /// Starts to tell the device of what was written.
    pub fn begin_ring(&mut self)
        requires idle { self.old.task ≡ None }
        ensures { self.new ≡ record self.old { task = Some Doorbell } }
    {
        self.phase = Phase::Recording;
    }

    /// Whether nothing is under way.
    pub fn is_idle(&self) -> bool
        ensures { IsTrue result ↔ (self.now.task ≡ None) }
    {
        matches!(self.phase, Phase::Idle)
    }

    /// How many slots were freed, as far as the last load of the tail word shows it, in field `a`; 0
    /// before the first. Where the queue was full this is the number, else at least as many were freed.
    pub fn seen(&self) -> Note
        ensures { result ≡ count_note self.now.seen }
    {
        Note {
            kind: 0,
            object: 0,
            a: self.seen,
            b: 0,
            c: 0,
            d: 0,
        }
    }

    /// Drops what is under way and all that was written since the last ring: the poster is idle, and
    /// posts on from what was rung. The device knows of none of it.
    pub fn forget(&mut self)
        ensures { self.new ≡ forgotten self.old }
    {
        self.written = 0;
        self.head = self.first;
        self.phase = Phase::Idle;
    }

    /// Makes one operation.
    pub fn turn<P: BusPort>(&mut self, port: &mut P) -> Step<(), SrqPosted>
        requires busy { IsSome self.old.task }
        requires port { CanServe self.old.place (P.port port.old) }
        ensures made { (e : BusEntry) × Appends (P.port port.old) (P.port port.new) e × PosterTurn self.old self.new e result }
        ensures whole { IsWhole result }
    {
        match self.phase {
            Phase::Idle => unreachable!(),
            Phase::Asking => {
                let word = port.load(self.place.tail);
                let count = self.rung + self.written;
                if word == self.head as u64 {
                    self.seen = count.saturating_sub(self.place.max_post() as u64);
                    self.phase = Phase::Idle;
                    Step::Done(SrqPosted::Full { at: self.head })
                } else {
                    self.seen = (count + 1).saturating_sub(self.place.max_post() as u64);
                    self.phase = Phase::Following;
                    Step::More
                }
            }
            Phase::Following => {
                let address = self.place.next_at(self.head);
                self.next = self.place.next_of(port.load(address));
                self.phase = Phase::Storing(0);
                Step::More
            }
            Phase::Storing(stored) => {
                let address = self.place.entry_at(self.head, stored);
                port.store(address, self.words[stored as usize]);
                if stored + 1 == self.place.entry_words() {
                    self.phase = Phase::Naming;
                    Step::More
                } else {
                    self.phase = Phase::Storing(stored + 1);
                    Step::More
                }
            }
            Phase::Naming => {
                let address = self.place.id_at(self.head);
                port.store(address, self.id);
                self.written += 1;
                self.head = self.next;
                self.phase = Phase::Idle;
                Step::Done(SrqPosted::Wrote)
            }
            Phase::Recording => {
                self.rung += self.written;
                self.written = 0;
                self.first = self.head;
                port.store(self.place.dbr, record_of(self.start, self.rung) as u64);
                self.phase = Phase::Idle;
                Step::Done(SrqPosted::Rung)
            }
        }
    }
}
