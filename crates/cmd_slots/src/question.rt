//! What the adapter makes of the words of a question.
ghost use Rattle.std.specs.Prelude.{◌≡◌, ◌+◌, ◌-◌, ◌*◌, ◌≤◌, ◌<◌, ◌∷◌, ◌++◌, [], None, length, take, drop, IfSome};
ghost use Rattle.prm_fields.specs.Refusal.{RefusesBy, first_refusal};
ghost use Rattle.cmd_format.specs.Block.{block_rules, blocks_of};
ghost use Rattle.cmd_format.specs.Entry.{HasParts, KeepsLimits};
ghost use Rattle.cmd_slots.specs.Place.{IsSlot};
ghost use Rattle.cmd_slots.specs.Refusal.{refusal_with};
ghost use Rattle.cmd_slots.specs.Question.{is_judged as judged_at, pointer_to as pointer_of};
ghost use Rattle.cmd_slots.specs.Question.{entry_of, block_of, judged, in_len, input_of, out_len, token, inputs, number_in as number_of, rules_before, pointer_rule, body_of, verdict as verdict_of};

use crate::Answer;
use crate::bytes::write_words;
use crate::place::{block_address, block_in_slot, blocks_behind, number_in};
use cmd_bodies::{Command, Reply, decode};
use cmd_format::{CmdEntry, Delivery, decode_entry, read_block};

/// The bytes of the entry.
fn entry_bytes(words: &[u64]) -> [u8; 64]
    requires { 8 ≤ length words.now }
    ensures { result ≡ entry_of words.now }
{
    let mut bytes = [0; 64];
    write_words(&mut bytes, &words[..8]);
    bytes
}

/// The bytes of block `b`.
fn block_bytes(words: &[u64], b: u32) -> [u8; 576]
    requires { 80 + 72 * b ≤ length words.now }
    ensures { result ≡ block_of words.now b }
{
    let at = 8 + 72 * b as usize;
    let mut bytes = [0; 576];
    write_words(&mut bytes, &words[at..at + 72]);
    bytes
}

/// The reply to a command whose body is refused.
fn refusal(status: u8) -> Reply
    ensures { result ≡ refusal_with status }
{
    Reply {
        status,
        number: 0,
        pages: 0,
        list: [0; 88],
    }
}

/// The pointer that leads to block `b`.
fn pointer_to(words: &[u64], entry: &CmdEntry, b: u32) -> u64
    requires entry { HasParts entry.now (entry_of words.now) }
    requires loaded { 8 + 72 * b ≤ length words.now }
    ensures { result ≡ pointer_of words.now b }
{
    if b == blocks_behind(entry.in_len) {
        entry.out_ptr
    } else if b == 0 {
        entry.in_ptr
    } else {
        words[6 + 72 * b as usize]
    }
}

/// Judges the pointer to block `b`.
fn judge_pointer(slot: u32, words: &[u64], entry: &CmdEntry, b: u32) -> Result<(), Delivery>
    requires slot { IsSlot slot }
    requires entry { HasParts entry.now (entry_of words.now) }
    requires few { b ≤ 4 }
    requires loaded { 8 + 72 * b ≤ length words.now }
    ensures { RefusesBy result (pointer_rule slot words.now b ∷ []) }
{
    let inputs = blocks_behind(entry.in_len);
    if pointer_to(words, entry, b) == block_address(slot, block_in_slot(inputs, b)) {
        Ok(())
    } else if b < inputs {
        Err(Delivery::InputPointer)
    } else {
        Err(Delivery::OutputPointer)
    }
}

/// Judges block `b` after the pointer to it.
fn judge_block(slot: u32, words: &[u64], entry: &CmdEntry, b: u32) -> Result<(), Delivery>
    requires slot { IsSlot slot }
    requires entry { HasParts entry.now (entry_of words.now) }
    requires few { b < 4 }
    requires loaded { 80 + 72 * b ≤ length words.now }
    ensures { RefusesBy result (pointer_rule slot words.now b ∷ block_rules (token words.now) (number_of (inputs words.now) b) (block_of words.now b)) }
{
    judge_pointer(slot, words, entry, b)?;
    let number = number_in(blocks_behind(entry.in_len), b);
    read_block(&block_bytes(words, b), entry.token, number)?;
    Ok(())
}

/// Judges the first `count` blocks, each after the pointer to it.
fn judge_blocks(slot: u32, words: &[u64], entry: &CmdEntry, count: u32) -> Result<(), Delivery>
    requires slot { IsSlot slot }
    requires entry { HasParts entry.now (entry_of words.now) }
    requires kept { first_refusal (rules_before slot words.now 0) ≡ None }
    requires few { count ≤ 4 }
    requires loaded { 8 + 72 * count ≤ length words.now }
    ensures { RefusesBy result (rules_before slot words.now count) }
{
    for b in 0..count {
        judge_block(slot, words, entry, b)?;
    }
    Ok(())
}

/// The 16 bytes of input in the entry, and 0 behind them.
fn entry_input(entry: &CmdEntry) -> [u8; 1040]
    ensures head { take 16 result ≡ entry.now.input }
    ensures long { length result ≡ 1040 }
{
    let mut bytes = [0; 1040];
    bytes[..16].copy_from_slice(&entry.input);
    bytes
}

/// Copies what a block carries to the bytes from `at` on.
fn put_part(bytes: &mut [u8; 1040], at: usize, block: &[u8; 576])
    requires { at + 512 ≤ 1040 }
    ensures { bytes.new ≡ take at bytes.old ++ take 512 block.now ++ drop (at + 512) bytes.old }
{
    bytes[at..at + 512].copy_from_slice(&block[..512]);
}

/// The first bytes of the input: 16 of the entry, and then those of the blocks.
fn input_bytes(words: &[u64], entry: &CmdEntry) -> [u8; 1040]
    requires entry { HasParts entry.now (entry_of words.now) }
    requires limits { KeepsLimits entry.now }
    requires loaded { 8 + 72 * inputs words.now ≤ length words.now }
    ensures { take (in_len words.now) result ≡ input_of words.now }
{
    let inputs = blocks_behind(entry.in_len);
    let mut bytes = entry_input(entry);
    if inputs == 0 {
        return bytes;
    }
    put_part(&mut bytes, 16, &block_bytes(words, 0));
    if inputs == 1 {
        return bytes;
    }
    put_part(&mut bytes, 528, &block_bytes(words, 1));
    bytes
}

/// The command in the body of a question whose words are all there, or the answer that refuses it.
fn read_body(words: &[u64], entry: &CmdEntry) -> Result<Command, Answer>
    requires entry { HasParts entry.now (entry_of words.now) }
    requires limits { KeepsLimits entry.now }
    requires loaded { 8 + 72 * inputs words.now ≤ length words.now }
    ensures { result ≡ body_of (input_of words.now) (out_len words.now) }
{
    let bytes = input_bytes(words, entry);
    match decode(&bytes[..entry.in_len as usize], entry.out_len) {
        Ok(c) => Ok(c),
        Err(fault) => Err(Answer::Delivered(refusal(fault.status()))),
    }
}

/// How many blocks a question has.
fn blocks_wanted(entry: &CmdEntry) -> u32
    ensures { result ≡ blocks_of (entry.now.in_len - 16) + blocks_of (entry.now.out_len - 16) }
{
    blocks_behind(entry.in_len) + blocks_behind(entry.out_len)
}

/// Judges what is there when `count` blocks are: the blocks, and the pointer to a further one.
fn judge_loaded(slot: u32, words: &[u64], entry: &CmdEntry, count: u32) -> Result<(), Delivery>
    requires slot { IsSlot slot }
    requires entry { HasParts entry.now (entry_of words.now) }
    requires kept { first_refusal (rules_before slot words.now 0) ≡ None }
    requires few { count ≤ 4 }
    requires loaded { 8 + 72 * count ≤ length words.now }
    ensures { RefusesBy result (judged slot words.now count) }
{
    judge_blocks(slot, words, entry, count)?;
    if count < blocks_wanted(entry) {
        judge_pointer(slot, words, entry, count)?;
    }
    Ok(())
}

/// Whether a question is judged when so many of its words are there: after the entry, and after each
/// block.
fn is_judged(count: u32) -> bool
    ensures { result ≡ judged_at count }
{
    count >= 8 && (count - 8).is_multiple_of(72)
}

/// What the adapter makes of the first words of a question: the command, the answer that refuses it,
/// or None while it must read on. It judges in the order of the delivery statuses, and then the body.
pub(crate) fn judge(slot: u32, words: &[u64]) -> Option<Result<Command, Answer>>
    requires slot { IsSlot slot }
    requires few { length words.now ≤ 296 }
    ensures { result ≡ verdict_of slot words.now }
{
    let count = words.len() as u32;
    if !is_judged(count) {
        return None;
    }
    let entry = match decode_entry(&entry_bytes(words)) {
        Ok(entry) => entry,
        Err(fault) => return Some(Err(Answer::Refused(fault))),
    };
    let there = (count - 8) / 72;
    match judge_loaded(slot, words, &entry, there) {
        Ok(()) if there < blocks_wanted(&entry) => None,
        Ok(()) => Some(read_body(words, &entry)),
        Err(fault) => Some(Err(Answer::Refused(fault))),
    }
}
