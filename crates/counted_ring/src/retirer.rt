//! The user of a queue that looks completed requests up and retires them.
ghost use Rattle.std.specs.Prelude.{◌≡◌, ◌<◌, ◌≤◌, ◌+◌, ◌^◌, ◌↔◌, IsTrue, IsSome, Some, None, false};
ghost use Rattle.bus_core.specs.Port.{Appends};
ghost use Rattle.bus_core.specs.declared.operation.BusEntry.{BusEntry};
ghost use Rattle.bus_core.specs.Turn.{IsWhole, count_note};
ghost use Rattle.counted_ring.specs.Place.{IsPlace, is_send};
ghost use Rattle.counted_ring.specs.RetirerView.{RetirerTurn, Lookups, Retirement, forgotten};
ghost use Rattle.counted_ring.specs.Turn.{CanServe};

use crate::place::WqPlace;
use bus_core::{BusPort, Note, Step};
use std::marker::Model;

/// What a lookup or a retirement came to.
#[derive(Clone, Copy, Debug, PartialEq, Eq)]
pub enum Retired {
    /// The counter's request has this id, and `end` is the tail that retires it: of a send the head
    /// word of its block and 1, of a receive 1 more than the end that was found before.
    Found { id: u64, end: u64 },
    /// This tail was stored.
    Tail { tail: u64 },
}

/// What a retirer is at: a lookup's counter, before its id and before its head word, or the tail that
/// is to be stored.
#[derive(Clone, Copy)]
enum Phase {
    Idle,
    Naming(u16),
    Counting(u16),
    Retiring(u64),
}

/// Looks the counters of completions up and retires their requests, one bus operation a turn: a load
/// of the id word and, in a send queue, one of the head word; a retirement is one store of the tail.
/// So does the rdma-core mlx5 provider.
#[derive(Drop)]
pub struct WqRetirer {
    place: WqPlace,
    tail: u64,
    found: u64,
    id: u64,
    phase: Phase,
}

impl Model for WqRetirer {
    ghost use Rattle.counted_ring.specs.RetirerView.{RetirerView};

    ghost Value = { RetirerView };

    ghost use Rattle.counted_ring.specs.RetirerInside.{retirer_view, IsRetirer};

    ghost view = { retirer_view };

    ghost invariant = { IsRetirer };
}

impl WqRetirer {
    /// An idle retirer of a queue of which nothing was retired. Tails count from 0 whatever the index
    /// of the queue's first block is.
    pub fn new(at: WqPlace, _start: u64) -> WqRetirer
        requires { IsPlace at }
        ensures { result ≡ record { place = at; side = record { tail = 0; found = 0; asked = None }; task = None } }
    {
        WqRetirer {
            place: at,
            tail: 0,
            found: 0,
            id: 0,
            phase: Phase::Idle,
        }
    }

    /// Starts to look up the request whose completion has this counter.
    pub fn begin_lookup(&mut self, counter: u16)
        requires idle { self.old.task ≡ None }
        requires count { self.old.side.found < 2 ^ 62 }
        ensures { self.new ≡ record self.old { task = Some (Lookups counter) } }
    {
        self.phase = Phase::Naming(counter);
    }

    /// Starts to retire the requests below this end: the first that was found and is not yet retired.
    pub fn begin_retire(&mut self, end: u64)
        requires idle { self.old.task ≡ None }
        requires later { self.old.side.tail < end }
        requires found { end ≤ self.old.side.found }
        requires one { is_send self.old.place ≡ false → end ≡ self.old.side.tail + 1 }
        ensures { self.new ≡ record self.old { task = Some (Retirement end) } }
    {
        self.phase = Phase::Retiring(end);
    }

    /// Whether nothing is under way.
    pub fn is_idle(&self) -> bool
        ensures { IsTrue result ↔ (self.now.task ≡ None) }
    {
        matches!(self.phase, Phase::Idle)
    }

    /// How many requests were posted, as far as the last end that was found shows it, in field `a`.
    pub fn seen(&self) -> Note
        ensures { result ≡ count_note self.now.side.found }
    {
        Note {
            kind: 0,
            object: 0,
            a: self.found,
            b: 0,
            c: 0,
            d: 0,
        }
    }

    /// Drops what is under way and the ends that were found since the last tail: the retirer is idle.
    pub fn forget(&mut self)
        ensures { self.new ≡ forgotten self.old }
    {
        self.found = self.tail;
        self.phase = Phase::Idle;
    }

    /// Makes one operation.
    pub fn turn<P: BusPort>(&mut self, port: &mut P) -> Step<(), Retired>
        requires busy { IsSome self.old.task }
        requires port { CanServe self.old.place (P.port port.old) }
        ensures made { (e : BusEntry) × Appends (P.port port.old) (P.port port.new) e × RetirerTurn self.old self.new e result }
        ensures whole { IsWhole result }
    {
        match self.phase {
            Phase::Idle => unreachable!(),
            Phase::Naming(counter) => {
                let address = self.place.id_at(counter as u64);
                self.id = port.load(address);
                if self.place.is_send() {
                    self.phase = Phase::Counting(counter);
                    Step::More
                } else {
                    self.found += 1;
                    self.phase = Phase::Idle;
                    Step::Done(Retired::Found {
                        id: self.id,
                        end: self.found,
                    })
                }
            }
            Phase::Counting(counter) => {
                let address = self.place.head_at(counter as u64);
                self.found = port.load(address).wrapping_add(1);
                self.phase = Phase::Idle;
                Step::Done(Retired::Found {
                    id: self.id,
                    end: self.found,
                })
            }
            Phase::Retiring(end) => {
                port.store(self.place.tail, end);
                self.tail = end;
                self.phase = Phase::Idle;
                Step::Done(Retired::Tail { tail: end })
            }
        }
    }
}
