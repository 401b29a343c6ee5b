//! The user of a queue that posts.
ghost use Rattle.std.specs.Prelude.{◌≡◌, ◌<◌, ◌^◌, ◌↔◌, IsTrue, IsSome, Some, None, slice_index};
ghost use Rattle.bus_core.specs.Port.{Appends};
ghost use Rattle.bus_core.specs.declared.operation.BusEntry.{BusEntry};
ghost use Rattle.bus_core.specs.Turn.{IsWhole, count_note};
ghost use Rattle.counted_ring.specs.Place.{IsPlace, span, entry_words};
ghost use Rattle.counted_ring.specs.PosterView.{PosterTurn, Posting, Doorbell, fresh, forgotten};
ghost use Rattle.counted_ring.specs.Turn.{CanServe};

use crate::place::{WqPlace, outstanding};
use bus_core::{BusPort, Note, Step};
use std::marker::Model;
use work_entries::SendWords;

/// What a post or a ring came to.
#[derive(Clone, Copy, Debug, PartialEq, Eq)]
pub enum Posted {
    /// The request was written; the device does not know of it before a ring.
    Wrote,
    /// The record and, in a send queue, the register tell the device of all that was written.
    Rung,
    /// As many requests as may be are not retired, and nothing was stored: `head` requests were
    /// posted, and the tail that was loaded is `tail`.
    Full { head: u64, tail: u64 },
}

/// How many requests were posted, the block index of the next one, and the first word of the last one.
#[derive(Clone, Copy)]
struct Posts {
    count: u64,
    index: u64,
    first: u64,
}

/// What a poster is at; `Storing` has the number of words stored.
#[derive(Clone, Copy)]
enum Phase {
    Idle,
    Asking,
    Storing(u32),
    Naming,
    Counting,
    Recording,
    Ringing,
}

/// Posts requests, one bus operation a turn: a load of the tail, and where that leaves room the stores
/// of the entry's words in order, of its id and, in a send queue, of its head word, which says how many
/// requests were posted before it. A ring stores the record, the 16 low bits of the block index that
/// comes next, and in a send queue the register: the first word of the last entry. So does the
/// rdma-core mlx5 provider.
#[derive(Drop)]
pub struct WqPoster {
    place: WqPlace,
    posts: Posts,
    /// What was posted at the last ring.
    rung: Posts,
    entry: SendWords,
    id: u64,
    phase: Phase,
    seen: u64,
}

impl Model for WqPoster {
    ghost use Rattle.counted_ring.specs.PosterView.{PosterView};

    ghost Value = { PosterView };

    ghost use Rattle.counted_ring.specs.PosterInside.{poster_view, IsPoster};

    ghost view = { poster_view };

    ghost invariant = { IsPoster };
}

impl WqPoster {
    /// An idle poster of an empty queue, whose first block has the index `start`. Requests count from
    /// 0 whatever it is.
    pub fn new(at: WqPlace, start: u64) -> WqPoster
        requires place { IsPlace at }
        requires index { start < 2 ^ 62 }
        ensures { result ≡ fresh at start }
    {
        let none = Posts {
            count: 0,
            index: start,
            first: 0,
        };
        WqPoster {
            place: at,
            posts: none,
            rung: none,
            entry: SendWords {
                blocks: 1,
                words: [0; 32],
            },
            id: 0,
            phase: Phase::Idle,
            seen: 0,
        }
    }

    /// Starts to post this entry with this id. It has as many blocks as its control segment says; a
    /// receive has one, in the first `stride` words.
    pub fn begin_post(&mut self, e: SendWords, id: u64)
        requires idle { self.old.task ≡ None }
        requires count { self.old.side.count < 2 ^ 62 }
        requires index { self.old.side.index < 2 ^ 62 }
        requires blocks { e.blocks ≡ span self.old.place (slice_index e.words 0) }
        ensures { self.new ≡ record self.old { task = Some (Posting (entry_words self.old.place e) id) } }
    {
        self.entry = e;
        self.id = id;
        self.phase = Phase::Asking;
    }

    /// Starts to tell the device of what was written.
    pub fn begin_ring(&mut self)
        requires idle { self.old.task ≡ None }
        ensures { self.new ≡ record self.old { task = Some Doorbell } }
    {
        self.phase = Phase::Recording;
    }

    /// Whether nothing is under way.
    pub fn is_idle(&self) -> bool
        ensures { IsTrue result ↔ (self.now.task ≡ None) }
    {
        matches!(self.phase, Phase::Idle)
    }

    /// The block index of the request that comes next.
    pub fn index(&self) -> u64
        ensures { result ≡ self.now.side.index }
    {
        self.posts.index
    }

    /// The tail that the last load of it showed, in field `a`; 0 before the first.
    pub fn seen(&self) -> Note
        ensures { result ≡ count_note self.now.side.seen }
    {
        Note {
            kind: 0,
            object: 0,
            a: self.seen,
            b: 0,
            c: 0,
            d: 0,
        }
    }

    /// Drops what is under way and all that was posted since the last ring: the poster is idle, and posts
    /// on from what was rung. The device knows of none of it.
    pub fn forget(&mut self)
        ensures { self.new ≡ forgotten self.old }
    {
        self.posts = self.rung;
        self.phase = Phase::Idle;
    }

    /// Makes one operation.
    pub fn turn<P: BusPort>(&mut self, port: &mut P) -> Step<(), Posted>
        requires busy { IsSome self.old.task }
        requires port { CanServe self.old.place (P.port port.old) }
        ensures made { (e : BusEntry) × Appends (P.port port.old) (P.port port.new) e × PosterTurn self.old self.new e result }
        ensures whole { IsWhole result }
    {
        match self.phase {
            Phase::Idle => unreachable!(),
            Phase::Asking => {
                self.seen = port.load(self.place.tail);
                if outstanding(self.posts.count, self.seen) < self.place.max_post as u64 {
                    self.phase = Phase::Storing(0);
                    Step::More
                } else {
                    self.phase = Phase::Idle;
                    Step::Done(Posted::Full {
                        head: self.posts.count,
                        tail: self.seen,
                    })
                }
            }
            Phase::Storing(stored) => {
                let address = self.place.word_at(self.posts.index, stored);
                port.store(address, self.entry.words[stored as usize]);
                if stored + 1 == self.entry.blocks * self.place.stride {
                    self.phase = Phase::Naming;
                    Step::More
                } else {
                    self.phase = Phase::Storing(stored + 1);
                    Step::More
                }
            }
            Phase::Naming => {
                let address = self.place.id_at(self.posts.index);
                port.store(address, self.id);
                if self.place.is_send() {
                    self.phase = Phase::Counting;
                    Step::More
                } else {
                    self.posts.count += 1;
                    self.posts.index += self.entry.blocks as u64;
                    self.posts.first = self.entry.words[0];
                    self.phase = Phase::Idle;
                    Step::Done(Posted::Wrote)
                }
            }
            Phase::Counting => {
                let address = self.place.head_at(self.posts.index);
                port.store(address, self.posts.count);
                self.posts.count += 1;
                self.posts.index += self.entry.blocks as u64;
                self.posts.first = self.entry.words[0];
                self.phase = Phase::Idle;
                Step::Done(Posted::Wrote)
            }
            Phase::Recording => {
                port.store(self.place.dbr, self.posts.index & 0xffff);
                self.rung = self.posts;
                if self.place.is_send() {
                    self.phase = Phase::Ringing;
                    Step::More
                } else {
                    self.phase = Phase::Idle;
                    Step::Done(Posted::Rung)
                }
            }
            Phase::Ringing => {
                let Some(register) = self.place.reg else {
                    unreachable!()
                };
                port.store(register, self.posts.first);
                self.phase = Phase::Idle;
                Step::Done(Posted::Rung)
            }
        }
    }
}
