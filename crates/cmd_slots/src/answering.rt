//! Writing the words of an answer.
ghost use Rattle.std.specs.Prelude.{◌≡◌, ◌+◌, ◌/◌, ◌%◌, ◌<◌, ◌≤◌, ◌++◌, ◌∷◌, [], length, take, slice_index};
ghost use Rattle.cmd_format.specs.Signature.{exclusive_or};
ghost use Rattle.cmd_slots.specs.Place.{IsSlot};
ghost use Rattle.cmd_slots.specs.Bytes.{bytes_of};
ghost use Rattle.cmd_slots.specs.Refusal.{delivery_in, delivery_for};
ghost use Rattle.cmd_slots.specs.Question.{token as token_in};
ghost use Rattle.cmd_slots.specs.Answer.{IsAnswer};
ghost use Rattle.cmd_slots.specs.Answering.{IsOutput, IsShort};

use crate::Answer;
use crate::asking::addresses_from;
use crate::blocks::put_blocks;
use crate::bytes::{read_words, write_words};
use cmd_bodies::encode_reply;
use cmd_format::sign_entry;
use prm_fields::{cmd_entry_rows, field_of, word};

/// The delivery status of an answer: 0 where the command was delivered.
fn delivery_status(a: &Answer) -> u8
    ensures status { result ≡ delivery_for a.now }
    ensures small { result ≤ 16 }
{
    match a {
        Answer::Delivered(_) => 0,
        Answer::Refused(fault) => fault.number(),
    }
}

/// Writes the output of an answer, and gives its length; a refusal has 16 bytes of 0.
fn output_of(a: &Answer, output: &mut [u8; 1040]) -> u32
    requires { IsShort a.now }
    ensures { IsOutput a.now result output.new }
{
    match a {
        Answer::Delivered(reply) => encode_reply(reply, output),
        Answer::Refused(_) => 16,
    }
}

/// The token of an entry.
fn token_of(entry: &[u64]) -> u8
    requires { 8 ≤ length entry.now }
    ensures { result ≡ token_in entry.now }
{
    (entry[7] >> 24 & 0xff) as u8
}

/// The last word of an entry with this output, which gives it back to software with a delivery status
/// and a new signature.
fn last_word(entry: &[u64], high: u64, low: u64, status: u8) -> u64
    requires long { length entry.now ≡ 8 }
    requires status { status < 128 }
    ensures software { result % 2 ≡ 0 }
    ensures told { delivery_in result ≡ status }
    ensures signed { exclusive_or (bytes_of (take 4 entry.now ++ (high ∷ low ∷ slice_index entry.now 6 ∷ result ∷ []))) ≡ 255 }
{
    let mut words = [
        entry[0], entry[1], entry[2], entry[3], high, low, entry[6], entry[7],
    ];
    let mut bytes = [0; 64];
    write_words(&mut bytes, &words);
    cmd_entry_rows!(field_of[StatusOwn]).put(&mut bytes, 2 * status as u64);
    sign_entry(&mut bytes);
    read_words(&bytes, &mut words);
    words[7]
}

/// Writes the words of an answer to the question of this entry, and gives their number.
pub(crate) fn answer(slot: u32, entry: &[u64], a: &Answer, words: &mut [u64; 147]) -> u32
    requires slot { IsSlot slot }
    requires entry { length entry.now ≡ 8 }
    requires short { IsShort a.now }
    ensures long { result ≤ 147 }
    ensures given { IsAnswer entry.now a.now (take result words.new) }
{
    let mut output = [0; 1040];
    let long = output_of(a, &mut output);
    let rest = &output[16..long as usize];
    let blocks = put_blocks(words, 3, rest, token_of(entry), &addresses_from(slot, 2));
    let high = word(&output, 0);
    let low = word(&output, 1);
    words[0] = high;
    words[1] = low;
    words[2] = last_word(entry, high, low, delivery_status(a));
    3 + 72 * blocks
}
