//! The word in which each slot has a bit.
ghost use Rattle.std.specs.Prelude.{◌≡◌, ◌↔◌, IsTrue, true, false};
ghost use Rattle.bus_core.specs.Port.{Appends};
ghost use Rattle.bus_core.specs.declared.operation.BusEntry.{BusEntry};
ghost use Rattle.bus_core.specs.Turn.{IsWhole};
ghost use Rattle.cmd_slots.specs.Place.{IsSlot};
ghost use Rattle.cmd_slots.specs.Device.{has_bit};
ghost use Rattle.cmd_slots.specs.BitsView.{BitsTurn, Cleared, IsLowest};
ghost use Rattle.cmd_slots.specs.Turn.{CanServe};

use crate::place::BITS_WORD;
use bus_core::{BusPort, Step};
use std::marker::Model;

/// Finds in which slots a command is asked. A sweep is one bus operation: it swaps the word of all
/// slots' bits with 0, and so takes each bit once. The bits that it found stay here until their
/// commands are answered. The word is the Programmer's Reference Manual's; that the adapter swaps it,
/// and serves the lowest slot first, is this project's own.
#[derive(Drop)]
pub struct SlotBits {
    bits: u32,
    sweeping: bool,
}

impl Model for SlotBits {
    ghost use Rattle.cmd_slots.specs.BitsView.{BitsView};

    ghost Value = { BitsView };

    ghost use Rattle.cmd_slots.specs.BitsInside.{bits_view};

    ghost view = { bits_view };
}

impl SlotBits {
    /// Before the first sweep.
    pub fn new() -> SlotBits
        ensures { result ≡ record { bits = 0; sweeping = false } }
    {
        SlotBits {
            bits: 0,
            sweeping: false,
        }
    }

    /// Starts a sweep.
    pub fn begin_sweep(&mut self)
        requires idle { self.old.sweeping ≡ false }
        ensures { self.new ≡ record self.old { sweeping = true } }
    {
        self.sweeping = true;
    }

    /// Whether no sweep is under way.
    pub fn is_idle(&self) -> bool
        ensures { IsTrue result ↔ (self.now.sweeping ≡ false) }
    {
        !self.sweeping
    }

    /// The lowest slot whose bit was found and whose command is not answered.
    pub fn lowest(&self) -> Option<u32>
        ensures { IsLowest self.now.bits result }
    {
        if self.bits == 0 {
            None
        } else {
            Some(self.bits.trailing_zeros())
        }
    }

    /// Drops the bit of a slot, when its command is answered.
    pub fn clear(&mut self, slot: u32)
        requires { IsSlot slot }
        ensures found { Cleared slot self.old.bits self.new.bits }
        ensures task { self.new.sweeping ≡ self.old.sweeping }
    {
        self.bits &= !(1 << slot);
    }

    /// Makes the operation of a sweep.
    pub fn turn<P: BusPort>(&mut self, port: &mut P) -> Step<(), ()>
        requires busy { self.old.sweeping ≡ true }
        requires port { CanServe (P.port port.old) }
        ensures made { (e : BusEntry) × Appends (P.port port.old) (P.port port.new) e × BitsTurn self.old self.new e result }
        ensures whole { IsWhole result }
    {
        let word = port.swap(BITS_WORD, 0);
        self.bits |= (word & 0xffff_ffff) as u32;
        self.sweeping = false;
        Step::Done(())
    }
}
