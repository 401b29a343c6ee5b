//! Command queue entries.

ghost use Rattle.std.specs.Prelude.{◌≡◌, ◌+◌, ◌≤◌, IfOk, slice_range};
ghost use Rattle.prm_fields.specs.Bits.{KeepsOtherBytes};
ghost use Rattle.cmd_format.specs.Signature.{exclusive_or as exclusive_or_of};
ghost use Rattle.prm_fields.specs.Refusal.{RefusesBy};
ghost use Rattle.cmd_format.specs.Entry.{HasParts, IsEntry, KeepsLimits, entry_rules};
ghost use Rattle.cmd_format.specs.declared.entry.CmdEntry.{CmdEntry};

use crate::delivery::Delivery;
use crate::signature::exclusive_or;
use prm_fields::{LayoutName, byte_of, cmd_entry_rows, field_of, reserved_clear};

/// A command queue entry.
#[derive(Clone, Copy, Debug, PartialEq, Eq)]
pub struct CmdEntry {
    /// How many bytes of input the command has, 16 to 1,040.
    pub in_len: u32,
    /// The byte address of the first input block, or 0 where the input has no more than 16 bytes.
    pub in_ptr: u64,
    /// The first 16 bytes of the input.
    pub input: [u8; 16],
    /// The first 16 bytes of the output.
    pub output: [u8; 16],
    /// The byte address of the first output block, or 0 where the output has no more than 16 bytes.
    pub out_ptr: u64,
    /// How many bytes of output the command wants, 12 to 1,040.
    pub out_len: u32,
    /// What entry and blocks of one command have in common.
    pub token: u8,
    /// Bit 0: the adapter owns the entry. Bits 7 to 1: the delivery status.
    pub status_own: u8,
}

// The type of an entry of the command queue.
const COMMAND: u8 = 7;

// How many bytes of input and of output an entry holds itself; more lie in blocks.
const HELD: u32 = 16;

const LEAST_INPUT: u32 = 16;

const LEAST_OUTPUT: u32 = 12;

// The bytes that an entry holds and those of two blocks.
const MOST: u32 = 1040;

/// Makes the signature such that the exclusive-or of the whole entry is 0xff.
pub fn sign_entry(bytes: &mut [u8; 64])
    ensures signed { exclusive_or_of bytes.new ≡ 255 }
    ensures others { KeepsOtherBytes bytes.old bytes.new 61 1 }
{
    bytes[cmd_entry_rows!(byte_of[Signature])] ^= exclusive_or(bytes) ^ 0xff;
}

/// Writes 16 bytes from byte `at` on.
#[inline(always)]
fn copy_part(bytes: &mut [u8; 64], at: usize, part: &[u8; 16])
    requires { at + 16 ≤ 64 }
    ensures copied { slice_range bytes.new at (at + 16) ≡ part.now }
    ensures others { KeepsOtherBytes bytes.old bytes.new at 16 }
{
    bytes[at..at + 16].copy_from_slice(part);
}

/// The entry as bytes, with its signature.
pub fn encode_entry(e: &CmdEntry) -> [u8; 64]
    ensures { IsEntry e.now result }
{
    let mut bytes = [0; 64];
    cmd_entry_rows!(field_of[TypeByte]).put(&mut bytes, COMMAND as u64);
    cmd_entry_rows!(field_of[InLen]).put(&mut bytes, e.in_len as u64);
    cmd_entry_rows!(field_of[InPtr]).put(&mut bytes, e.in_ptr);
    cmd_entry_rows!(field_of[OutPtr]).put(&mut bytes, e.out_ptr);
    cmd_entry_rows!(field_of[OutLen]).put(&mut bytes, e.out_len as u64);
    cmd_entry_rows!(field_of[Token]).put(&mut bytes, e.token as u64);
    cmd_entry_rows!(field_of[StatusOwn]).put(&mut bytes, e.status_own as u64);
    copy_part(&mut bytes, cmd_entry_rows!(byte_of[InputHi]), &e.input);
    copy_part(&mut bytes, cmd_entry_rows!(byte_of[OutputHi]), &e.output);
    sign_entry(&mut bytes);
    bytes
}

/// 16 bytes from byte `at` on.
#[inline(always)]
fn part_of(bytes: &[u8; 64], at: usize) -> [u8; 16]
    requires { at + 16 ≤ 64 }
    ensures { result ≡ slice_range bytes.now at (at + 16) }
{
    let mut part = [0; 16];
    part.copy_from_slice(&bytes[at..at + 16]);
    part
}

/// The parts of an entry, whatever its type, reserved bits and signature are.
#[inline(always)]
fn parts_of(bytes: &[u8; 64]) -> CmdEntry
    ensures { HasParts result bytes.now }
{
    CmdEntry {
        in_len: cmd_entry_rows!(field_of[InLen]).get(bytes) as u32,
        in_ptr: cmd_entry_rows!(field_of[InPtr]).get(bytes),
        input: part_of(bytes, cmd_entry_rows!(byte_of[InputHi])),
        output: part_of(bytes, cmd_entry_rows!(byte_of[OutputHi])),
        out_ptr: cmd_entry_rows!(field_of[OutPtr]).get(bytes),
        out_len: cmd_entry_rows!(field_of[OutLen]).get(bytes) as u32,
        token: cmd_entry_rows!(field_of[Token]).get(bytes) as u8,
        status_own: cmd_entry_rows!(field_of[StatusOwn]).get(bytes) as u8,
    }
}

/// The entry that the bytes spell.
///
/// Its refusals come in this order, which is this project's own: the signature, the type, the reserved
/// bits, the input length, the output length, a pointer to input blocks where none is needed, and one
/// to output blocks.
pub fn decode_entry(bytes: &[u8; 64]) -> Result<CmdEntry, Delivery>
    ensures found { IfOk result (λ e. IsEntry e bytes.now) }
    ensures limits { IfOk result KeepsLimits }
    ensures only { (e : CmdEntry) → IsEntry e bytes.now → KeepsLimits e → result ≡ Ok e }
    ensures refused { RefusesBy result (entry_rules bytes.now) }
{
    if exclusive_or(bytes) != 0xff {
        return Err(Delivery::Signature);
    }
    if cmd_entry_rows!(field_of[TypeByte]).get(bytes) != COMMAND as u64 {
        return Err(Delivery::Descriptor);
    }
    if !reserved_clear(LayoutName::CmdEntry, bytes) {
        return Err(Delivery::Reserved);
    }
    let entry = parts_of(bytes);
    if entry.in_len < LEAST_INPUT || entry.in_len > MOST {
        return Err(Delivery::InputLength);
    }
    if entry.out_len < LEAST_OUTPUT || entry.out_len > MOST {
        return Err(Delivery::OutputLength);
    }
    if entry.in_len <= HELD && entry.in_ptr != 0 {
        return Err(Delivery::InputPointer);
    }
    if entry.out_len <= HELD && entry.out_ptr != 0 {
        return Err(Delivery::OutputPointer);
    }
    Ok(entry)
}
