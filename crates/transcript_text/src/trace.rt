//! The text of a trace of bus operations.
ghost use Rattle.std.specs.Prelude.{◌≡◌, ◌≤◌, ◌+◌, ◌-◌, [], ◌∷◌, ◌++◌, decimal, drop, length, zip, All, OnOk, IfOk};
ghost use Rattle.std.specs.List.{flat_map};
ghost use Rattle.scenario_text.specs.Requests.{line as line_of};
ghost use Rattle.transcript_text.specs.Fields.{spaced};
ghost use Rattle.transcript_text.specs.Trace as texts;

use crate::actor_names::{actor_names, name_of};
use crate::history::put_end;
use crate::line::{LineEnd, NameEnd};
use crate::writer::TextWriter;
use bus_core::{BusEntry, BusOp, TraceEntry};
use std::alloc::Global;
use verbs_types::{Declared, Lines, NoMemory};

/// The most bytes of the title and of the last line.
const FRAME: usize = 36;

/// The most bytes of a line after its actor.
const AFTER_ACTOR: usize = 53;

/// Prints a trace, in this project's own form: a title, a line an operation, and the count of
/// operations. The line of a marked operation ends in an asterisk. Where an operation that reads
/// has no old word, which no bus leaves, 0 stands for it. The only error is that memory ran out; the text's is asked
/// for once, before the first line.
pub fn print_trace(
    alloc: Global,
    declared: &Declared,
    trace: &[TraceEntry],
    marks: &[bool],
) -> Result<Vec<u8>, NoMemory>
    requires lengths { length marks.now ≡ length trace.now }
    requires actors { All (texts.IsOperation declared.now) trace.now }
    ensures { IfOk result (λ text. text.items ≡ texts.trace_text declared.now trace.now marks.now) }
{
    let lines = declared.lines();
    let mut out = TextWriter::with_capacity(alloc, room(lines, trace.len()))?;
    put_trace(alloc, &mut out, lines, trace, marks)?;
    Ok(out.into_vec())
}

/// At least as many bytes as the text of a trace of `count` operations has.
pub(crate) fn room(lines: &Lines, count: usize) -> usize {
    longest_name(lines)
        .saturating_add(AFTER_ACTOR)
        .saturating_mul(count)
        .saturating_add(FRAME)
}

/// The most bytes of the name of an actor.
fn longest_name(lines: &Lines) -> usize {
    let mut longest = b"dev".len();
    for name in lines.threads.as_slice() {
        longest = longest.max(name.as_bytes().len());
    }
    longest
}

pub(crate) fn put_trace(
    alloc: Global,
    out: &mut TextWriter,
    lines: &Lines,
    trace: &[TraceEntry],
    marks: &[bool],
) -> Result<(), NoMemory>
    requires lengths { length marks.now ≡ length trace.now }
    requires actors { All (texts.IsOperation lines.now) trace.now }
    ensures { OnOk result (out.new ≡ out.old ++ texts.trace_text lines.now trace.now marks.now) }
{
    out.put_bytes(b"mlx5 trace\n")?;
    put_operations(alloc, out, lines, trace, marks)?;
    put_end(out, trace.len() as u64)
}

fn put_operations(
    alloc: Global,
    out: &mut TextWriter,
    lines: &Lines,
    trace: &[TraceEntry],
    marks: &[bool],
) -> Result<(), NoMemory>
    requires lengths { length marks.now ≡ length trace.now }
    requires actors { All (texts.IsOperation lines.now) trace.now }
    ensures { OnOk result (out.new
        ≡ out.old ++ flat_map (texts.operation_text lines.now) (zip trace.now marks.now)) }
{
    let names = actor_names(alloc, lines)?;
    let mut line = LineEnd::new();
    for (entry, marked) in trace.iter().zip(marks) {
        let entry = entry.entry();
        let name = name_of(names.as_slice(), entry.actor);
        put_operation(out, &mut line, name, &entry, *marked)?;
    }
    Ok(())
}

/// Adds the line of an operation by the actor of this name. The line is made in `line`, and added once.
fn put_operation(
    out: &mut TextWriter,
    line: &mut LineEnd,
    name: &NameEnd,
    entry: &BusEntry,
    marked: bool,
) -> Result<(), NoMemory>
    ensures { OnOk result (out.new ≡ out.old ++ line_of (name.now ∷ texts.operation_fields entry.now marked)) }
{
    line.begin();
    put_fields(line, entry, marked);
    line.put_name(name);
    out.put_bytes(line.as_slice())
}

/// Adds the fields of a line after its actor.
fn put_fields(line: &mut LineEnd, entry: &BusEntry, marked: bool)
    requires { length line.old ≤ 1 }
    ensures text { line.new ≡ spaced (texts.operation_fields entry.now marked) ++ line.old }
    ensures short { length line.new ≤ 64 }
{
    if marked {
        line.put_byte(b'*');
        line.put_byte(b' ');
    }
    put_op(line, entry);
}

/// Adds the operation, its address and its words.
fn put_op(line: &mut LineEnd, entry: &BusEntry)
    requires { length line.old ≤ 3 }
    ensures text { line.new ≡ spaced (texts.op_fields entry.now) ++ line.old }
    ensures short { length line.new ≤ 64 }
{
    let old = entry.old.unwrap_or(0);
    let word = match entry.op {
        BusOp::Load => old,
        BusOp::Store(value) => value,
        BusOp::SetBits(given) | BusOp::Swap(given) => {
            put_word(line, old);
            given
        }
    };
    put_word(line, word);
    line.put_number(entry.addr);
    let (name, length) = match entry.op {
        BusOp::Load => (b"   load ", 6),
        BusOp::Store(_) => (b"  store ", 7),
        BusOp::SetBits(_) => (b"     or ", 4),
        BusOp::Swap(_) => (b"   swap ", 6),
    };
    line.put_last(name, length);
}

/// Adds a word after a space.
fn put_word(line: &mut LineEnd, word: u64)
    requires { length line.old ≤ 20 }
    ensures text { line.new ≡ 32 ∷ texts.word_text word ++ line.old }
    ensures long { length line.new ≡ length line.old + 17 }
{
    line.put_word(word);
    line.put_byte(b' ');
}
