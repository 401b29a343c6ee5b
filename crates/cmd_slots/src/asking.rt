//! Writing the words in which a command is asked.
ghost use Rattle.std.specs.Prelude.{◌≡◌, ◌+◌, ◌<◌, ◌≤◌, length, take};
ghost use Rattle.cmd_format.specs.Entry.{IsEntry};
ghost use Rattle.cmd_format.specs.declared.entry.CmdEntry.{CmdEntry};
ghost use Rattle.cmd_bodies.specs.Command.{FitsFields};
ghost use Rattle.cmd_slots.specs.Place.{IsSlot};
ghost use Rattle.cmd_slots.specs.Bytes.{bytes_of};
ghost use Rattle.cmd_slots.specs.Asking.{addresses_from as addresses_of, asked_entry as entry_of, pointer_for as pointer_of};
ghost use Rattle.cmd_slots.specs.Question.{IsQuestion};

use crate::blocks::put_blocks;
use crate::bytes::read_words;
use crate::place::block_address;
use cmd_bodies::{Command, encode, output_length};
use cmd_format::{CmdEntry, encode_entry};

/// What entry and blocks of a command have in common. A host has one command at a time, so that one
/// token does for all (this project's own).
const TOKEN: u8 = 0x2a;

/// The pointer to block `j`, where input or output of so many bytes needs it.
fn pointer_for(slot: u32, j: u32, bytes: u32) -> u64
    requires slot { IsSlot slot }
    requires block { j < 4 }
    ensures { result ≡ pointer_of slot j bytes }
{
    if bytes > 16 {
        block_address(slot, j)
    } else {
        0
    }
}

/// The byte addresses of two blocks from block `j` on.
pub(crate) fn addresses_from(slot: u32, j: u32) -> [u64; 2]
    requires slot { IsSlot slot }
    requires block { j < 4 }
    ensures { result ≡ addresses_of slot j }
{
    [block_address(slot, j), block_address(slot, j + 1)]
}

/// The first 16 bytes of an input.
fn head_of(input: &[u8; 1040]) -> [u8; 16]
    ensures { result ≡ take 16 input.now }
{
    let mut head = [0; 16];
    head.copy_from_slice(&input[..16]);
    head
}

/// The entry of a command with this input.
fn asked_entry(slot: u32, input: &[u8; 1040], in_len: u32, out_len: u32) -> CmdEntry
    requires { IsSlot slot }
    ensures { result ≡ entry_of slot (take 16 input.now) in_len out_len }
{
    CmdEntry {
        in_len,
        in_ptr: pointer_for(slot, 0, in_len),
        input: head_of(input),
        output: [0; 16],
        out_ptr: pointer_for(slot, 2, out_len),
        out_len,
        token: TOKEN,
        status_own: 1,
    }
}

/// Writes the words of an entry.
fn put_entry(words: &mut [u64], entry: &CmdEntry)
    requires { 8 ≤ length words.old }
    ensures { IsEntry entry.now (bytes_of (take 8 words.new)) }
{
    read_words(&encode_entry(entry), &mut words[..8]);
}

/// Writes the words in which a command is asked, and gives their number.
pub(crate) fn ask(slot: u32, c: &Command, words: &mut [u64; 296]) -> u32
    requires slot { IsSlot slot }
    requires fits { FitsFields c.now }
    ensures long { result ≤ 296 }
    ensures asked { IsQuestion slot c.now (take result words.new) }
{
    let mut input = [0; 1040];
    let in_len = encode(c, &mut input);
    let out_len = output_length(c);
    let rest = &input[16..in_len as usize];
    let output = [0; 704];
    let output = &output[..out_len.saturating_sub(16) as usize];
    put_entry(words, &asked_entry(slot, &input, in_len, out_len));
    let inputs = put_blocks(words, 8, rest, TOKEN, &addresses_from(slot, 0));
    let behind = 8 + 72 * inputs as usize;
    let outputs = put_blocks(words, behind, output, TOKEN, &addresses_from(slot, 2));
    8 + 72 * (inputs + outputs)
}
