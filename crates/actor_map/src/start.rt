//! The words with which a run begins.
ghost use Rattle.std.specs.Prelude.{◌≡◌, ◌≤◌, ◌++◌, [], ◌∷◌, All, length, drop, replicate};
ghost use Rattle.std.specs.List.{flat_map};
ghost use Rattle.actor_map.specs.Limits.{IsEqSize, IsCqSize, IsQpSize};
ghost use Rattle.actor_map.specs.Setting.{CanSet, Sets};
ghost use Rattle.actor_map.specs.Sizes.{words_of};
ghost use Rattle.actor_map.specs.Start as start;

use crate::sizes::{FIRST_OBJECT, places, receive_words, send_words};
use bus_core::PlainBus;
use verbs_types::{CqLine, Declared, EqLine, QpLine};

/// Word 7 of an event queue's entry that was never written: the owner bit is 1.
const UNWRITTEN_EVENT: u64 = 1;

/// Word 7 of a completion queue's entry that was never written: opcode 15 (`MLX5_CQE_INVALID`).
const UNWRITTEN_COMPLETION: u64 = 0xf0;

/// What an arm register holds where nothing was armed.
const NO_ARM: u64 = u64::MAX;

/// The command queue has 2^5 entries of 2^6 bytes, which is word 3.
const COMMAND_QUEUE_SIZE: u64 = 0x56;

/// The adapter initialises, which is bit 31 of word 5.
const INITIALIZING: u64 = 1 << 31;

/// Sets the words with which a run of these objects begins, in a bus that has made no operation. Word 0 is the
/// start word: 1 in a scheduled run, and 0 in a run of threads that wait for it.
pub fn set_starts(declared: &Declared, start_word: u64, bus: &mut PlainBus)
    requires empty { bus.old.trace ≡ [] }
    requires inside { words_of declared.now ≤ length bus.old.start }
    ensures long { length bus.new.start ≡ length bus.old.start }
    ensures words { bus.new ≡ record bus.old { start = start.starts declared.now start_word ++ drop (words_of declared.now) bus.old.start } }
{
    let lines = declared.lines();
    let next = set_head(bus, start_word);
    let next = set_eqs(bus, next, lines.eqs.as_slice());
    let next = set_cqs(bus, next, lines.cqs.as_slice());
    set_qps(bus, next, lines.qps.as_slice());
}

fn set_head(bus: &mut PlainBus, start_word: u64) -> u32
    requires { CanSet bus.old 0 FIRST_OBJECT }
    ensures { Sets bus.old bus.new 0 (start.head_start start_word) result }
{
    let next = set_words(
        bus,
        0,
        &[start_word, 0, 0, COMMAND_QUEUE_SIZE, 0, INITIALIZING],
    );
    set_zeros(bus, next, FIRST_OBJECT - 6)
}

fn set_eqs(bus: &mut PlainBus, from: u32, lines: &[EqLine]) -> u32
    requires limits { All IsEqSize lines.now }
    requires room { CanSet bus.old from (length (flat_map start.eq_start lines.now)) }
    ensures { Sets bus.old bus.new from (flat_map start.eq_start lines.now) result }
{
    let mut next = from;
    for line in lines {
        next = set_eq(bus, next, line);
    }
    next
}

fn set_cqs(bus: &mut PlainBus, from: u32, lines: &[CqLine]) -> u32
    requires limits { All IsCqSize lines.now }
    requires room { CanSet bus.old from (length (flat_map start.cq_start lines.now)) }
    ensures { Sets bus.old bus.new from (flat_map start.cq_start lines.now) result }
{
    let mut next = from;
    for line in lines {
        next = set_cq(bus, next, line);
    }
    next
}

fn set_qps(bus: &mut PlainBus, from: u32, lines: &[QpLine]) -> u32
    requires limits { All IsQpSize lines.now }
    requires room { CanSet bus.old from (length (flat_map start.qp_start lines.now)) }
    ensures { Sets bus.old bus.new from (flat_map start.qp_start lines.now) result }
{
    let mut next = from;
    for line in lines {
        next = set_qp(bus, next, line);
    }
    next
}

fn set_eq(bus: &mut PlainBus, next: u32, line: &EqLine) -> u32
    requires limits { IsEqSize line.now }
    requires room { CanSet bus.old next (length (start.eq_start line.now)) }
    ensures { Sets bus.old bus.new next (start.eq_start line.now) result }
{
    let next = set_entries(bus, next, places(line.log), UNWRITTEN_EVENT);
    set_words(bus, next, &[0, 0])
}

fn set_cq(bus: &mut PlainBus, next: u32, line: &CqLine) -> u32
    requires limits { IsCqSize line.now }
    requires room { CanSet bus.old next (length (start.cq_start line.now)) }
    ensures { Sets bus.old bus.new next (start.cq_start line.now) result }
{
    let record = line.start % (1 << 24);
    let next = set_entries(bus, next, 2 * places(line.ceiling), UNWRITTEN_COMPLETION);
    set_words(bus, next, &[record, record, NO_ARM, 0])
}

fn set_qp(bus: &mut PlainBus, next: u32, line: &QpLine) -> u32
    requires limits { IsQpSize line.now }
    requires room { CanSet bus.old next (length (start.qp_start line.now)) }
    ensures { Sets bus.old bus.new next (start.qp_start line.now) result }
{
    let record = line.start % (1 << 16);
    let next = set_zeros(bus, next, send_words(line) + receive_words(line));
    set_words(bus, next, &[record, record, 0])
}

/// Sets `count` entries, the last word of each to `owner`.
fn set_entries(bus: &mut PlainBus, from: u32, count: u64, owner: u64) -> u32
    requires room { CanSet bus.old from (length (start.entries count owner)) }
    ensures { Sets bus.old bus.new from (start.entries count owner) result }
{
    let mut next = from;
    for _ in 0..count {
        next = set_words(bus, next, &[0, 0, 0, 0, 0, 0, 0, owner]);
    }
    next
}

fn set_zeros(bus: &mut PlainBus, from: u32, count: u64) -> u32
    requires room { CanSet bus.old from count }
    ensures { Sets bus.old bus.new from (replicate count 0) result }
{
    let mut next = from;
    for _ in 0..count {
        next = set_words(bus, next, &[0]);
    }
    next
}

/// Sets these words from this one on, and gives the one behind them.
fn set_words(bus: &mut PlainBus, from: u32, words: &[u64]) -> u32
    requires room { CanSet bus.old from (length words.now) }
    ensures { Sets bus.old bus.new from words.now result }
{
    let mut next = from;
    for word in words {
        bus.set_start(next, *word);
        next += 1;
    }
    next
}
