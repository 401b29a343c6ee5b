//! The user of a shared receive queue that looks completed receives up and frees their slots.
ghost use Rattle.std.specs.Prelude.{◌≡◌, ◌-◌, ◌↔◌, IsTrue, IsSome, Some, None};
ghost use Rattle.bus_core.specs.Port.{Appends};
ghost use Rattle.bus_core.specs.declared.operation.BusEntry.{BusEntry};
ghost use Rattle.bus_core.specs.Turn.{IsWhole, count_note};
ghost use Rattle.srq_list.specs.Place.{IsPlace, size, slot_of};
ghost use Rattle.srq_list.specs.FreerView.{FreerTurn, Search, Release, fresh, forgotten};
ghost use Rattle.srq_list.specs.Turn.{CanServe};

use crate::place::{SrqPlace, link_word};
use bus_core::{BusPort, Note, Step};
use std::marker::Model;

/// What a lookup or a free came to.
#[derive(Clone, Copy, Debug, PartialEq, Eq)]
pub enum SrqFreed {
    /// The receive of the slot has this id.
    Found { id: u64 },
    /// The slot is the last free one.
    Freed,
}

/// What a freer is at: the slot of a lookup, or of a free before its link and before the tail word.
#[derive(Clone, Copy)]
enum Phase {
    Idle,
    Naming(u16),
    Linking(u16),
    Releasing(u16),
}

/// Looks the slots of completions up and frees them, one bus operation a turn: a lookup is a load of the
/// id word; a free stores the slot's index into the next segment of the last free slot and then the
/// tail word, which makes the slot the last free one. So does the rdma-core mlx5 provider.
#[derive(Drop)]
pub struct SrqFreer {
    place: SrqPlace,
    tail: u16,
    phase: Phase,
}

impl Model for SrqFreer {
    ghost use Rattle.srq_list.specs.FreerView.{FreerView};

    ghost Value = { FreerView };

    ghost use Rattle.srq_list.specs.FreerInside.{freer_view, IsFreer};

    ghost view = { freer_view };

    ghost invariant = { IsFreer };
}

impl SrqFreer {
    /// An idle freer of a queue of which nothing was freed: its last slot is the last free one.
    pub fn new(at: SrqPlace) -> SrqFreer
        requires { IsPlace at }
        ensures { result ≡ fresh at }
    {
        SrqFreer {
            place: at,
            tail: at.max_post() as u16,
            phase: Phase::Idle,
        }
    }

    /// Starts to look up the receive of this slot, modulo the number of slots.
    pub fn begin_lookup(&mut self, slot: u16)
        requires idle { self.old.task ≡ None }
        ensures { self.new ≡ record self.old { task = Some (Search (slot_of self.old.place slot)) } }
    {
        self.phase = Phase::Naming(self.place.slot_of(slot as u64));
    }

    /// Starts to free this slot, modulo the number of slots. It is to be one whose receive was taken, and
    /// that was not freed since.
    pub fn begin_free(&mut self, slot: u16)
        requires idle { self.old.task ≡ None }
        ensures { self.new ≡ record self.old { task = Some (Release (slot_of self.old.place slot)) } }
    {
        self.phase = Phase::Linking(self.place.slot_of(slot as u64));
    }

    /// Whether nothing is under way.
    pub fn is_idle(&self) -> bool
        ensures { IsTrue result ↔ (self.now.task ≡ None) }
    {
        matches!(self.phase, Phase::Idle)
    }

    /// Neither a lookup nor a free shows a count of another user: all fields are 0.
    pub fn seen(&self) -> Note
        ensures { result ≡ count_note 0 }
    {
        Note {
            kind: 0,
            object: 0,
            a: 0,
            b: 0,
            c: 0,
            d: 0,
        }
    }

    /// Drops what is under way: the freer is idle. A free whose tail word is not stored has freed nothing.
    pub fn forget(&mut self)
        ensures { self.new ≡ forgotten self.old }
    {
        self.phase = Phase::Idle;
    }

    /// Makes one operation.
    pub fn turn<P: BusPort>(&mut self, port: &mut P) -> Step<(), SrqFreed>
        requires busy { IsSome self.old.task }
        requires port { CanServe self.old.place (P.port port.old) }
        ensures made { (e : BusEntry) × Appends (P.port port.old) (P.port port.new) e × FreerTurn self.old self.new e result }
        ensures whole { IsWhole result }
    {
        match self.phase {
            Phase::Idle => unreachable!(),
            Phase::Naming(slot) => {
                let address = self.place.id_at(slot);
                let id = port.load(address);
                self.phase = Phase::Idle;
                Step::Done(SrqFreed::Found { id })
            }
            Phase::Linking(slot) => {
                let address = self.place.next_at(self.tail);
                port.store(address, link_word(slot));
                self.phase = Phase::Releasing(slot);
                Step::More
            }
            Phase::Releasing(slot) => {
                port.store(self.place.tail, slot as u64);
                self.tail = slot;
                self.phase = Phase::Idle;
                Step::Done(SrqFreed::Freed)
            }
        }
    }
}
