//! The opcodes of completions (Programmer's Reference Manual), and what their completions have in
//! this project's profile.

ghost use Rattle.std.specs.Prelude.{◌≡◌};
ghost use Rattle.cqe_format.specs.Opcode as table;

/// A request succeeded.
pub const REQUEST: u8 = 0;

/// A receive took the immediate of a write.
pub const RECEIVE_WRITE: u8 = 1;

/// A receive took a send.
pub const RECEIVE_SEND: u8 = 2;

/// A receive took a send with immediate.
pub const RECEIVE_SEND_IMM: u8 = 3;

/// The queue goes on in its other area.
pub const RESIZE: u8 = 5;

/// A request failed.
pub const REQUEST_ERROR: u8 = 13;

/// A receive failed.
pub const RECEIVE_ERROR: u8 = 14;

/// No completion was written yet.
pub const UNWRITTEN: u8 = 15;

/// Whether it reports a receive that succeeded.
#[inline(always)]
pub fn is_receive(opcode: u8) -> bool
    ensures { result ≡ table.is_receive opcode }
{
    matches!(opcode, RECEIVE_WRITE | RECEIVE_SEND | RECEIVE_SEND_IMM)
}

/// Whether it reports a failure.
#[inline(always)]
pub fn is_error(opcode: u8) -> bool
    ensures { result ≡ table.is_error opcode }
{
    matches!(opcode, REQUEST_ERROR | RECEIVE_ERROR)
}

/// Whether a completion may have it.
#[inline(always)]
pub(crate) fn is_known(opcode: u8) -> bool
    ensures { result ≡ table.is_known opcode }
{
    opcode == REQUEST || is_receive(opcode) || opcode == RESIZE || is_error(opcode)
}

/// Whether its completions have the number of a shared receive queue.
#[inline(always)]
pub(crate) fn has_srqn(opcode: u8) -> bool
    ensures { result ≡ table.has_srqn opcode }
{
    is_receive(opcode) || opcode == RECEIVE_ERROR
}

/// Whether its completions have an immediate.
#[inline(always)]
pub(crate) fn has_imm(opcode: u8) -> bool
    ensures { result ≡ table.has_imm opcode }
{
    matches!(opcode, RECEIVE_WRITE | RECEIVE_SEND_IMM)
}

/// Whether its completions have the length of a message.
#[inline(always)]
pub(crate) fn has_len(opcode: u8) -> bool
    ensures { result ≡ table.has_len opcode }
{
    opcode == REQUEST || is_receive(opcode)
}

/// Whether a send request has this opcode.
#[inline(always)]
pub(crate) fn is_send_opcode(sop: u8) -> bool
    ensures { result ≡ table.is_send_opcode sop }
{
    matches!(sop, 0x00 | 0x08..=0x0b | 0x10..=0x12)
}
