//! One actor's access to the cells.
ghost use Rattle.std.specs.Prelude.{◌≡◌, ◌<◌, ◌+◌, ◌^◌};
ghost use Rattle.bus_core.specs.Port.{Appends, HasRoom};
ghost use Rattle.bus_core.specs.declared.operation.BusEntry.{BusEntry};
ghost use Rattle.mem_cells.specs.Turn.{ReadTurn, WriteTurn};
ghost use Rattle.mem_cells.specs.User.{new_user};

use crate::cell::pack;
use bus_core::BusPort;
use std::marker::Model;

/// Reads and writes the cells of data memory as one actor, one bus operation a call. It counts its
/// writes over all cells together.
#[derive(Drop)]
pub struct CellUser {
    writer: u8,
    writes: u64,
}

impl Model for CellUser {
    ghost use Rattle.mem_cells.specs.User.{User};

    ghost Value = { User };

    ghost use Rattle.mem_cells.specs.UserInside.{user_view};

    ghost view = { user_view };
}

impl CellUser {
    /// A user that has written nothing, with the number of its actor.
    pub fn new(writer: u8) -> CellUser
        ensures { result ≡ new_user writer }
    {
        CellUser { writer, writes: 0 }
    }

    /// How many writes it made. It may make 2^48 - 1.
    pub fn writes(&self) -> u64
        ensures { result ≡ self.now.writes }
    {
        self.writes
    }

    /// Reads the cell at this address, a word's: one load. The answer is the cell.
    pub fn read<P: BusPort>(&self, port: &mut P, addr: u32) -> u64
        requires inside { addr < (P.port port.old).words }
        requires room { HasRoom (P.port port.old).room }
        ensures { (e : BusEntry) × Appends (P.port port.old) (P.port port.new) e × ReadTurn self.now addr e result }
    {
        port.load(addr)
    }

    /// Writes this byte to the cell at this address, a word's: one swap. The answer is the cell as it
    /// was.
    pub fn write<P: BusPort>(&mut self, port: &mut P, addr: u32, byte: u8) -> u64
        requires count { self.old.writes + 1 < 2 ^ 48 }
        requires inside { addr < (P.port port.old).words }
        requires room { HasRoom (P.port port.old).room }
        ensures { (e : BusEntry) × Appends (P.port port.old) (P.port port.new) e × WriteTurn self.old self.new addr byte e result }
    {
        self.writes += 1;
        port.swap(addr, pack(byte, self.writer, self.writes))
    }
}
