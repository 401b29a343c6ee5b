//! Operations as a trace keeps them.
ghost use Rattle.std.specs.Prelude.{◌≡◌};
ghost use Rattle.bus_core.specs.Operation.{carried};
ghost use Rattle.bus_core.specs.TraceInside as words;

use crate::{BusEntry, BusOp};
use std::marker::Model;
use std::mem::size_of;

/// What an operation does.
#[derive(Clone, Copy, Drop)]
enum Kind {
    Load,
    Store,
    SetBits,
    Swap,
}

/// An entry in the 24 bytes in which a trace keeps it. Contracts see it as the `BusEntry`.
#[derive(Drop)]
pub struct TraceEntry {
    actor: u8,
    kind: Kind,
    /// Whether it tells the word that was there.
    tells: bool,
    addr: u32,
    /// The word or the bits given, or 0.
    given: u64,
    /// The word that was there, or 0.
    old: u64,
}

// A long run keeps some twenty million of them.
const _: () = prove!(size_of::<TraceEntry>() <= 24);

impl Model for TraceEntry {
    ghost use Rattle.bus_core.specs.declared.operation.BusEntry.{BusEntry};

    ghost Value = { BusEntry };

    ghost use Rattle.bus_core.specs.TraceInside.{entry_view};

    ghost view = { entry_view };
}

impl TraceEntry {
    /// The entry, to be kept.
    pub fn of(entry: BusEntry) -> Self
        ensures { result ≡ entry }
    {
        TraceEntry {
            actor: entry.actor,
            kind: kind_of(entry.op),
            tells: entry.old.is_some(),
            addr: entry.addr,
            given: given_in(entry.op),
            old: entry.old.unwrap_or(0),
        }
    }

    /// The entry.
    pub fn entry(&self) -> BusEntry
        ensures { result ≡ self.now }
    {
        BusEntry {
            actor: self.actor,
            addr: self.addr,
            op: op_of(self.kind, self.given),
            old: old_of(self.tells, self.old),
        }
    }
}

fn kind_of(op: BusOp) -> Kind
    ensures { words.op_of result (carried op) ≡ op }
{
    match op {
        BusOp::Load => Kind::Load,
        BusOp::Store(_) => Kind::Store,
        BusOp::SetBits(_) => Kind::SetBits,
        BusOp::Swap(_) => Kind::Swap,
    }
}

/// The word or the bits that an operation carries, or 0.
fn given_in(op: BusOp) -> u64
    ensures { result ≡ carried op }
{
    match op {
        BusOp::Load => 0,
        BusOp::Store(word) | BusOp::SetBits(word) | BusOp::Swap(word) => word,
    }
}

fn op_of(kind: Kind, given: u64) -> BusOp
    ensures { result ≡ words.op_of kind given }
{
    match kind {
        Kind::Load => BusOp::Load,
        Kind::Store => BusOp::Store(given),
        Kind::SetBits => BusOp::SetBits(given),
        Kind::Swap => BusOp::Swap(given),
    }
}

fn old_of(tells: bool, old: u64) -> Option<u64>
    ensures { result ≡ words.old_of tells old }
{
    if tells { Some(old) } else { None }
}
