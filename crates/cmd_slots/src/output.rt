//! Reading an answer from its words.
ghost use Rattle.std.specs.Prelude.{◌≡◌, ◌≤◌, ◌==◌, if◌then◌else◌, length, Some, None};
ghost use Rattle.cmd_bodies.specs.Reply.{reply_at};
ghost use Rattle.cmd_slots.specs.Bytes.{bytes_of};
ghost use Rattle.cmd_slots.specs.Refusal.{delivery_in, refusal_of};
ghost use Rattle.cmd_slots.specs.Answer.{is_output as is_whole, listed_behind, lists_pages as has_pages};

use crate::bytes::write_words;
use cmd_bodies::{Command, Reply, decode_reply};
use cmd_format::Delivery;

/// Why a command was not delivered, by the last word of its entry. None where it was delivered.
pub(crate) fn refusal_in(word: u64) -> Option<Delivery>
    ensures { result ≡ (if delivery_in word == 0 then None else Some (refusal_of (delivery_in word))) }
{
    let status = (word >> 1 & 0x7f) as u8;
    if status == 0 {
        None
    } else {
        Some(Delivery::from_number(status).unwrap_or(Delivery::Reserved))
    }
}

/// Whether the command is answered with a list of pages.
fn lists_pages(c: &Command) -> bool
    ensures { result ≡ has_pages c.now }
{
    matches!(c, Command::ReturnPages { .. })
}

/// How many addresses stand behind the first two words of an output.
fn listed_behind_two(c: &Command, words: &[u64]) -> u64
    requires { 2 ≤ length words.now }
    ensures listed { result ≡ listed_behind c.now words.now }
    ensures few { result ≤ 88 }
{
    if lists_pages(c) && words[0] >> 56 == 0 {
        (words[1] >> 32).min(88)
    } else {
        0
    }
}

/// Whether these are all words of the output.
pub(crate) fn is_output(c: &Command, words: &[u64]) -> bool
    requires { length words.now ≤ 90 }
    ensures { result ≡ is_whole c.now words.now }
{
    let long = words.len() as u64;
    long >= 2 && long >= 2 + listed_behind_two(c, words)
}

/// The reply in an output.
pub(crate) fn read_reply(c: &Command, words: &[u64]) -> Reply
    requires { length words.now ≤ 90 }
    ensures { result ≡ reply_at c.now (bytes_of words.now) }
{
    let mut bytes = [0; 720];
    let bytes = &mut bytes[..8 * words.len()];
    write_words(bytes, words);
    decode_reply(c, bytes)
}
