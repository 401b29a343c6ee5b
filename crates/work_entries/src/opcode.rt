//! The opcode table of send entries.

use verbs_types::Op;

/// What a send entry asks for. The names and numbers are those of the Programmer's Reference Manual
/// and the rdma-core mlx5 provider.
#[derive(Clone, Copy, Debug, PartialEq, Eq)]
pub enum Opcode {
    Nop,
    RdmaWrite,
    RdmaWriteImm,
    Send,
    SendImm,
    RdmaRead,
    /// Compare and swap.
    AtomicCs,
    /// Fetch and add.
    AtomicFa,
}

impl Opcode {
    ghost use Rattle.std.specs.Prelude.{◌≡◌};
    ghost use Rattle.work_entries.specs.Opcode.{fixed_units, has_immediate, may_inline, most_data, opcode_from, opcode_number, opcode_of};

    /// The opcode of an operation.
    pub fn of(op: &Op) -> Opcode
        ensures { result ≡ opcode_of op.now }
    {
        match op {
            Op::Nop => Opcode::Nop,
            Op::Send => Opcode::Send,
            Op::SendImm { .. } => Opcode::SendImm,
            Op::Write { .. } => Opcode::RdmaWrite,
            Op::WriteImm { .. } => Opcode::RdmaWriteImm,
            Op::Read { .. } => Opcode::RdmaRead,
            Op::Cas { .. } => Opcode::AtomicCs,
            Op::Faa { .. } => Opcode::AtomicFa,
        }
    }

    /// The number in the control segment.
    pub fn number(self) -> u8
        ensures { result ≡ opcode_number self }
    {
        match self {
            Opcode::Nop => 0x00,
            Opcode::RdmaWrite => 0x08,
            Opcode::RdmaWriteImm => 0x09,
            Opcode::Send => 0x0a,
            Opcode::SendImm => 0x0b,
            Opcode::RdmaRead => 0x10,
            Opcode::AtomicCs => 0x11,
            Opcode::AtomicFa => 0x12,
        }
    }

    /// The opcode with a number. None where the table has no such row.
    pub fn from_number(number: u8) -> Option<Opcode>
        ensures { result ≡ opcode_from number }
    {
        Some(match number {
            0x00 => Opcode::Nop,
            0x08 => Opcode::RdmaWrite,
            0x09 => Opcode::RdmaWriteImm,
            0x0a => Opcode::Send,
            0x0b => Opcode::SendImm,
            0x10 => Opcode::RdmaRead,
            0x11 => Opcode::AtomicCs,
            0x12 => Opcode::AtomicFa,
            _ => return None,
        })
    }

    /// How many units stand before the data: the control segment, the remote address, and the
    /// operands of an atomic operation.
    pub fn fixed_units(self) -> usize
        ensures { result ≡ fixed_units self }
    {
        match self {
            Opcode::Nop | Opcode::Send | Opcode::SendImm => 1,
            Opcode::RdmaWrite | Opcode::RdmaWriteImm | Opcode::RdmaRead => 2,
            Opcode::AtomicCs | Opcode::AtomicFa => 3,
        }
    }

    /// How many units of data there may be.
    pub fn most_data(self) -> usize
        ensures { result ≡ most_data self }
    {
        match self {
            Opcode::Nop => 0,
            _ => 8,
        }
    }

    /// Whether the data may stand in the entry itself.
    pub fn may_inline(self) -> bool
        ensures { result ≡ may_inline self }
    {
        match self {
            Opcode::Send | Opcode::SendImm | Opcode::RdmaWrite | Opcode::RdmaWriteImm => true,
            _ => false,
        }
    }

    /// Whether the control segment has an immediate.
    pub fn has_immediate(self) -> bool
        ensures { result ≡ has_immediate self }
    {
        match self {
            Opcode::SendImm | Opcode::RdmaWriteImm => true,
            _ => false,
        }
    }
}
