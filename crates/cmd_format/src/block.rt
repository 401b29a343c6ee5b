//! Mailbox blocks.

ghost use Rattle.std.specs.Prelude.{◌≡◌, ◌++◌, ◌+◌, ◌≤◌, IfOk, length, take, drop};
ghost use Rattle.prm_fields.specs.Bits.{KeepsOtherBytes};
ghost use Rattle.cmd_format.specs.Signature.{exclusive_or as exclusive_or_of};
ghost use Rattle.prm_fields.specs.Refusal.{RefusesBy};
ghost use Rattle.cmd_format.specs.Block.{HasBlocks, HasTail, IsBlock, KeepsBlocksFrom, block_rules, blocks_of, control_of, padded, tail_of};
ghost use Rattle.cmd_format.specs.declared.block.Block.{Block};

use crate::delivery::Delivery;
use crate::signature::exclusive_or;
use prm_fields::{LayoutName, block_tail_rows, byte_of, field_of, reserved_clear};

/// What a mailbox block carries.
#[derive(Clone, Copy, Debug, PartialEq, Eq)]
pub struct Block {
    /// 512 bytes of input or output.
    pub part: [u8; 512],
    /// The byte address of the next block, or 0 in the last one.
    pub next: u64,
}

/// The tail of a block, without its signatures.
#[inline(always)]
fn encode_tail(next: u64, number: u32, token: u8) -> [u8; 64]
    ensures parts { HasTail next number token result }
    ensures long { length result ≡ 64 }
{
    let mut tail = [0; 64];
    block_tail_rows!(field_of[Next]).put(&mut tail, next);
    block_tail_rows!(field_of[Number]).put(&mut tail, number as u64);
    block_tail_rows!(field_of[Token]).put(&mut tail, token as u64);
    tail
}

/// Writes a part from byte `at` on.
#[inline(always)]
fn copy_at(bytes: &mut [u8; 576], at: usize, part: &[u8])
    requires { at + length part.now ≤ 576 }
    ensures { bytes.new ≡ take at bytes.old ++ part.now ++ drop (at + length part.now) bytes.old }
{
    bytes[at..at + part.len()].copy_from_slice(part);
}

/// A part, filled up with 0 to 512 bytes, and a tail.
#[inline(always)]
fn join(part: &[u8], tail: &[u8; 64]) -> [u8; 576]
    requires { length part.now ≤ 512 }
    ensures { result ≡ padded part.now ++ tail.now }
{
    let mut bytes = [0; 576];
    copy_at(&mut bytes, 0, part);
    copy_at(&mut bytes, 512, tail);
    bytes
}

/// Makes both signatures: the exclusive-or of bytes 512 to 574 is then 0xff, and so is that of all bytes.
pub fn sign_block(bytes: &mut [u8; 576])
    ensures control_signed { exclusive_or_of (control_of bytes.new) ≡ 255 }
    ensures signed { exclusive_or_of bytes.new ≡ 255 }
    ensures others { KeepsOtherBytes bytes.old bytes.new 574 2 }
{
    bytes[512 + block_tail_rows!(byte_of[CtrlSignature])] ^= exclusive_or(&bytes[512..575]) ^ 0xff;
    bytes[512 + block_tail_rows!(byte_of[Signature])] ^= exclusive_or(bytes) ^ 0xff;
}

/// The bytes of one block, with its signatures.
fn encode_block(part: &[u8], next: u64, number: u32, token: u8) -> [u8; 576]
    requires { length part.now ≤ 512 }
    ensures { IsBlock (record { part = padded part.now; next = next }) token number result }
{
    let tail = encode_tail(next, number, token);
    let mut bytes = join(part, &tail);
    sign_block(&mut bytes);
    bytes
}

/// Writes the blocks of the input or output past its first 16 bytes, and gives their number.
///
/// `at` has the byte addresses of the two blocks. A part of fewer than 512 bytes is filled up with 0,
/// and a block that is not needed stays as it was.
pub fn encode_blocks(rest: &[u8], token: u8, at: &[u64; 2], blocks: &mut [[u8; 576]; 2]) -> u32
    requires { length rest.now ≤ 1024 }
    ensures count { result ≡ blocks_of (length rest.now) }
    ensures written { HasBlocks rest.now token at.now blocks.new }
    ensures unused { KeepsBlocksFrom result blocks.old blocks.new }
{
    if rest.is_empty() {
        0
    } else if rest.len() <= 512 {
        blocks[0] = encode_block(rest, 0, 0, token);
        1
    } else {
        let (first, second) = rest.split_at(512);
        blocks[0] = encode_block(first, at[1], 0, token);
        blocks[1] = encode_block(second, 0, 1, token);
        2
    }
}

/// The tail of a block as an array.
#[inline(always)]
fn tail_of_block(bytes: &[u8; 576]) -> [u8; 64]
    ensures { result ≡ tail_of bytes.now }
{
    let mut tail = [0; 64];
    tail.copy_from_slice(&bytes[512..]);
    tail
}

/// The first 512 bytes of a block as an array.
#[inline(always)]
fn part_of_block(bytes: &[u8; 576]) -> [u8; 512]
    ensures { result ≡ take 512 bytes.now }
{
    let mut part = [0; 512];
    part.copy_from_slice(&bytes[..512]);
    part
}

/// The block that the bytes spell, as number `number` of a command with this token.
///
/// Its refusals come in this order: a signature, the token, the block number, the reserved bits.
pub fn read_block(bytes: &[u8; 576], token: u8, number: u32) -> Result<Block, Delivery>
    ensures found { IfOk result (λ b. IsBlock b token number bytes.now) }
    ensures only { (b : Block) → IsBlock b token number bytes.now → result ≡ Ok b }
    ensures refused { RefusesBy result (block_rules token number bytes.now) }
{
    if exclusive_or(&bytes[512..575]) != 0xff || exclusive_or(bytes) != 0xff {
        return Err(Delivery::Signature);
    }
    let tail = tail_of_block(bytes);
    if block_tail_rows!(field_of[Token]).get(&tail) != token as u64 {
        return Err(Delivery::Token);
    }
    if block_tail_rows!(field_of[Number]).get(&tail) != number as u64 {
        return Err(Delivery::BlockNumber);
    }
    if !reserved_clear(LayoutName::BlockTail, &tail) {
        return Err(Delivery::Reserved);
    }
    Ok(Block {
        part: part_of_block(bytes),
        next: block_tail_rows!(field_of[Next]).get(&tail),
    })
}
