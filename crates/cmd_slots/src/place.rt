//! Where the words of the slots lie.
ghost use Rattle.std.specs.Prelude.{◌≡◌, ◌+◌, ◌-◌, ◌*◌, ◌/◌, ◌%◌, ◌^◌, ◌<◌, ◌≤◌, length, true};
ghost use Rattle.cmd_format.specs.Block.{blocks_of};
ghost use Rattle.cmd_slots.specs.Place as words;
ghost use Rattle.cmd_slots.specs.Place.{IsSlot, touches};
ghost use Rattle.cmd_slots.specs.Question as question;
ghost use Rattle.cmd_slots.specs.Answer as answer;
ghost use Rattle.cmd_slots.specs.Host as order;
ghost use Rattle.cmd_slots.specs.Turn.{HasWord};

/// The word of the bus in which each slot has a bit: the command doorbell vector of the Programmer's
/// Reference Manual, at byte 0x18 of the initialisation segment. Its place on the bus is this
/// project's own, as that of the entries and blocks.
pub(crate) const BITS_WORD: u32 = 4;

/// Word `k` of a slot's entry.
pub(crate) fn entry_word(slot: u32, k: u32) -> u32
    requires slot { IsSlot slot }
    requires word { k < 8 }
    ensures at { result ≡ words.entry_word slot k }
    ensures below { result < 17408 }
    ensures inside { touches result ≡ true }
{
    512 + 8 * slot + k
}

/// Word `k` of block `j` of a slot.
pub(crate) fn block_word(slot: u32, j: u32, k: u32) -> u32
    requires slot { IsSlot slot }
    requires block { j < 16 }
    requires word { k < 72 }
    ensures { result ≡ words.block_word slot j k }
{
    1024 + 128 * (4 * slot + j) + k
}

/// The byte address of block `j` of a slot.
pub(crate) fn block_address(slot: u32, j: u32) -> u64
    requires slot { IsSlot slot }
    requires block { j < 16 }
    ensures { result ≡ words.block_address slot j }
{
    8 * block_word(slot, j, 0) as u64
}

/// How many blocks so many bytes of input or output take behind their first 16.
pub(crate) fn blocks_behind(bytes: u32) -> u32
    ensures { result ≡ blocks_of (bytes - 16) }
{
    bytes.saturating_sub(16).div_ceil(512)
}

/// Which block of its slot block `b` of a question is.
pub(crate) fn block_in_slot(inputs: u32, b: u32) -> u32
    requires { b < 2 ^ 31 }
    ensures { result ≡ question.block_in_slot inputs b }
{
    if b < inputs { b } else { 2 + (b - inputs) }
}

/// Which block of its input or output it is.
pub(crate) fn number_in(inputs: u32, b: u32) -> u32
    ensures { result ≡ question.number_in inputs b }
{
    if b < inputs { b } else { b - inputs }
}

/// How many blocks of input a question has.
pub(crate) fn input_blocks(words: &[u64]) -> u32
    requires { 8 ≤ length words.now }
    ensures { result ≡ question.inputs words.now }
{
    blocks_behind((words[0] & 0xffff_ffff) as u32)
}

/// The address of word `p` of a question.
#[tactic(auto, unfolding(crate::specs::Question::question_word))]
pub(crate) fn question_word(slot: u32, words: &[u64], p: u32) -> u32
    requires slot { IsSlot slot }
    requires inside { HasWord words.now p }
    ensures at { result ≡ question.question_word slot words.now p }
    ensures below { result < 17408 }
    ensures inside { touches result ≡ true }
{
    if p < 8 {
        entry_word(slot, p)
    } else {
        let block = block_in_slot(input_blocks(words), (p - 8) / 72);
        block_word(slot, block, (p - 8) % 72)
    }
}

/// The address of word `p` of an answer.
#[tactic(auto, unfolding(crate::specs::Answer::answer_word))]
pub(crate) fn answer_word(slot: u32, p: u32) -> u32
    requires slot { IsSlot slot }
    requires inside { p < 147 }
    ensures at { result ≡ answer.answer_word slot p }
    ensures below { result < 17408 }
    ensures inside { touches result ≡ true }
{
    if p < 2 {
        entry_word(slot, 4 + p)
    } else if p == 2 {
        entry_word(slot, 7)
    } else {
        block_word(slot, 2 + (p - 3) / 72, (p - 3) % 72)
    }
}

/// The address of word `k` that a host reads of an answer.
#[tactic(auto, unfolding(crate::specs::Answer::output_word))]
pub(crate) fn output_word(slot: u32, k: u32) -> u32
    requires slot { IsSlot slot }
    requires inside { k < 90 }
    ensures at { result ≡ answer.output_word slot k }
    ensures below { result < 17408 }
    ensures inside { touches result ≡ true }
{
    if k < 2 {
        entry_word(slot, 4 + k)
    } else {
        block_word(slot, 2 + (k - 2) / 64, (k - 2) % 64)
    }
}

/// Which word is stored when `count` of `long` words are: first those behind the head, then the head.
pub(crate) fn stored_next(head: u32, long: u32, count: u32) -> u32
    requires head { head ≤ 8 }
    requires long { long ≤ 296 }
    requires fits { head ≤ long }
    requires count { count < long }
    ensures { result ≡ order.stored_next head long count }
{
    if count + head < long {
        count + head
    } else {
        count + head - long
    }
}
