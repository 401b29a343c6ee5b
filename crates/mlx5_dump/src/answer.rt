//! What dumped bytes of each kind say.
ghost use Rattle.std.specs.Prelude.{◌≡◌, ℕ, ◌*◌, ◌<◌, ◌≤◌, ◌++◌, OnOk, IsTrue, length, slice_index};
ghost use Rattle.prm_fields.specs.Bits.{field_value};
ghost use Rattle.cmd_format.specs.Block.{tail_of};
ghost use Rattle.cqe_format.specs.Event.{event_layout};
ghost use Rattle.mlx5_dump.specs.Kind.{has_length};
ghost use Rattle.mlx5_dump.specs.Answer.{block_answer, body_answer, body_fields, cqe_layout, entry_answer, fields_text, good, numbered, refused, rule_name, send_fields, unit_words, PutsAnswer};

use crate::kind::Kind;
use crate::text::{number_at, put_field, put_fields, put_number};
use cmd_bodies::decode;
use cmd_format::{decode_entry, read_block};
use cqe_format::opcode::is_error;
use cqe_format::{Cqe, decode_cqe, decode_eqe};
use prm_fields::{LayoutName, block_tail_rows, field_of};
use std::alloc::AllocError;
use verbs_types::EventRecord;
use work_entries::{BadEntry, EntryRule, SendWords, decode_send};

/// The bytes as an array.
fn array_of<const N: usize>(bytes: &[u8]) -> [u8; N]
    requires { length bytes.now ≡ N }
    ensures { result ≡ bytes.now }
{
    let mut array = [0; N];
    array.copy_from_slice(bytes);
    array
}

/// Adds `ok` and the fields of a layout.
fn put_good(text: &mut Vec<u8>, layout: LayoutName, bytes: &[u8]) -> Result<(), AllocError>
    ensures { OnOk result (text.new.items ≡ text.old.items ++ good (fields_text layout bytes.now)) }
{
    text.extend_from_slice(b"ok")?;
    put_fields(text, layout, bytes)
}

/// Adds that the bytes are refused, with a word and a number.
fn put_refusal(text: &mut Vec<u8>, word: &str, number: u64) -> Result<(), AllocError>
    ensures { OnOk result (text.new.items ≡ text.old.items ++ refused (numbered word.now number)) }
{
    text.extend_from_slice(b"refused ")?;
    text.extend_from_slice(word.as_bytes())?;
    text.extend_from_slice(b" ")?;
    put_number(text, number)
}

/// Adds the answer to a command queue entry.
fn put_entry(text: &mut Vec<u8>, bytes: &[u8]) -> Result<(), AllocError>
    requires { length bytes.now ≡ 64 }
    ensures { OnOk result (text.new.items ≡ text.old.items ++ entry_answer bytes.now) }
{
    match decode_entry(&array_of(bytes)) {
        Ok(_) => put_good(text, LayoutName::CmdEntry, bytes),
        Err(fault) => put_refusal(text, "delivery", fault.number() as u64),
    }
}

/// Adds the answer to a mailbox block, which is read with its own token and number.
fn put_block(text: &mut Vec<u8>, bytes: &[u8]) -> Result<(), AllocError>
    requires { length bytes.now ≡ 576 }
    ensures { OnOk result (text.new.items ≡ text.old.items ++ block_answer bytes.now) }
{
    let tail: [u8; 64] = array_of(&bytes[512..576]);
    let token = block_tail_rows!(field_of[Token]).get(&tail) as u8;
    let number = block_tail_rows!(field_of[Number]).get(&tail) as u32;
    match read_block(&array_of(bytes), token, number) {
        Ok(_) => put_good(text, LayoutName::BlockTail, &tail),
        Err(fault) => put_refusal(text, "delivery", fault.number() as u64),
    }
}

/// The first `N` words of bytes, each read big-endian, and 0 past the end.
fn words_of<const N: usize>(bytes: &[u8]) -> [u64; N]
    requires { N ≤ 32 }
    ensures long { length result ≡ N }
    ensures each { (k : ℕ) → k < N → slice_index result k ≡ field_value bytes.now (64 * k) 64 }
{
    let mut words = [0; N];
    for k in 0..N {
        words[k] = number_at(bytes, 64 * k, 64);
    }
    words
}

/// The layout of a completion, by its opcode.
fn completion_layout(completion: &Cqe) -> LayoutName
    ensures { result ≡ cqe_layout completion.now }
{
    if is_error(completion.opcode) {
        LayoutName::CqeErr
    } else {
        LayoutName::Cqe
    }
}

/// The layout of an event.
fn layout_of_event(event: &EventRecord) -> LayoutName
    ensures { result ≡ event_layout event.now }
{
    match event {
        EventRecord::Completion { .. } => LayoutName::EqeCq,
        EventRecord::CqError { .. } => LayoutName::EqeError,
    }
}

/// Adds the answer to a completion queue entry.
fn put_completion(text: &mut Vec<u8>, bytes: &[u8]) -> Result<(), AllocError>
    requires { length bytes.now ≡ 64 }
    ensures { OnOk result (PutsAnswer Kind.Cqe bytes.now text.old.items text.new.items) }
{
    match decode_cqe(&words_of(bytes)) {
        Ok(completion) => put_good(text, completion_layout(&completion), bytes),
        Err(wrong) => put_refusal(text, "byte", wrong.byte as u64),
    }
}

/// Adds the answer to an event queue entry.
fn put_event(text: &mut Vec<u8>, bytes: &[u8]) -> Result<(), AllocError>
    requires { length bytes.now ≡ 64 }
    ensures { OnOk result (PutsAnswer Kind.Eqe bytes.now text.old.items text.new.items) }
{
    match decode_eqe(&words_of(bytes)) {
        Ok(event) => put_good(text, layout_of_event(&event), bytes),
        Err(wrong) => put_refusal(text, "byte", wrong.byte as u64),
    }
}

/// The name of a rule of send entries.
fn rule_text(rule: EntryRule) -> &'static str
    ensures { result.now ≡ rule_name rule }
{
    match rule {
        EntryRule::Opcode => "opcode",
        EntryRule::Size => "size",
        EntryRule::Index => "index",
        EntryRule::Number => "number",
        EntryRule::Flags => "flags",
        EntryRule::Reserved => "reserved",
    }
}

/// Adds `ok`, the fields of the control segment and the count of units.
fn put_control(text: &mut Vec<u8>, bytes: &[u8]) -> Result<(), AllocError>
    ensures { OnOk result (text.new.items ≡ text.old.items ++ good (send_fields bytes.now)) }
{
    put_good(text, LayoutName::Ctrl, bytes)?;
    text.extend_from_slice(b" units ")?;
    put_number(text, number_at(bytes, 56, 8))
}

/// Adds which unit of an entry breaks which rule.
fn put_bad_unit(text: &mut Vec<u8>, bad: BadEntry) -> Result<(), AllocError>
    ensures { OnOk result (text.new.items ≡ text.old.items ++ refused (unit_words bad)) }
{
    put_refusal(text, "unit", bad.unit as u64)?;
    text.extend_from_slice(b" ")?;
    text.extend_from_slice(rule_text(bad.why).as_bytes())
}

/// Adds the answer to an entry of a send queue.
fn put_send(text: &mut Vec<u8>, bytes: &[u8]) -> Result<(), AllocError>
    requires { length bytes.now ≤ 256 }
    ensures { OnOk result (PutsAnswer Kind.Send bytes.now text.old.items text.new.items) }
{
    let entry = SendWords {
        blocks: (bytes.len() / 64) as u32,
        words: words_of(bytes),
    };
    match decode_send(&entry) {
        Ok(_) => put_control(text, bytes),
        Err(bad) => put_bad_unit(text, bad),
    }
}

/// How many bytes of output a body is read with.
const OUTPUT_LENGTH: u32 = 16;

/// Adds the opcode and the modifier of a command's input.
fn put_opcode(text: &mut Vec<u8>, bytes: &[u8]) -> Result<(), AllocError>
    ensures { OnOk result (text.new.items ≡ text.old.items ++ good (body_fields bytes.now)) }
{
    text.extend_from_slice(b"ok")?;
    put_field(text, "opcode", number_at(bytes, 0, 16))?;
    put_field(text, "op_mod", number_at(bytes, 48, 16))
}

/// Adds the answer to a command's input.
fn put_body(text: &mut Vec<u8>, bytes: &[u8]) -> Result<(), AllocError>
    ensures { OnOk result (text.new.items ≡ text.old.items ++ body_answer bytes.now) }
{
    match decode(bytes, OUTPUT_LENGTH) {
        Ok(_) => put_opcode(text, bytes),
        Err(fault) => put_refusal(text, "status", fault.status() as u64),
    }
}

/// Adds the answer to bytes of a kind.
pub fn put_answer(text: &mut Vec<u8>, kind: Kind, bytes: &[u8]) -> Result<(), AllocError>
    requires { IsTrue (has_length kind (length bytes.now)) }
    ensures { OnOk result (PutsAnswer kind bytes.now text.old.items text.new.items) }
{
    match kind {
        Kind::Cqe => put_completion(text, bytes),
        Kind::Eqe => put_event(text, bytes),
        Kind::Send => put_send(text, bytes),
        Kind::Entry => put_entry(text, bytes),
        Kind::Block => put_block(text, bytes),
        Kind::Body => put_body(text, bytes),
    }
}
