//! Writing mailbox blocks as words.
ghost use Rattle.std.specs.Prelude.{◌≡◌, ◌+◌, ◌*◌, ◌≤◌, length, take};
ghost use Rattle.cmd_format.specs.Block.{blocks_of};
ghost use Rattle.cmd_slots.specs.Blocks.{HasBlockWords};

use crate::bytes::read_words;
use cmd_format::encode_blocks;

/// Writes the blocks that carry `rest` as words from word `at` on, and gives their number.
///
/// `addresses` has the byte addresses of the two blocks of an input or an output.
pub(crate) fn put_blocks(
    words: &mut [u64],
    at: usize,
    rest: &[u8],
    token: u8,
    addresses: &[u64; 2],
) -> u32
    requires few { length rest.now ≤ 1024 }
    requires room { at + 72 * blocks_of (length rest.now) ≤ length words.old }
    requires short { length words.old ≤ 296 }
    ensures count { result ≡ blocks_of (length rest.now) }
    ensures written { HasBlockWords rest.now token addresses.now at words.new }
    ensures before { take at words.new ≡ take at words.old }
{
    let mut blocks = [[0; 576]; 2];
    let count = encode_blocks(rest, token, addresses, &mut blocks);
    for b in 0..count as usize {
        let from = at + 72 * b;
        read_words(&blocks[b], &mut words[from..from + 72]);
    }
    count
}
