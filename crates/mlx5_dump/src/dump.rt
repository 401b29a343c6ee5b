//! Answering the lines of a whole text.
ghost use Rattle.std.specs.Prelude.{◌≡◌, ◌≢◌, ◌≤◌, ℕ, List, [], ◌∷◌, ◌++◌, IfErr, OnOk};
ghost use Rattle.mlx5_dump.specs.Dump.{Says, call, status_of};
ghost use Rattle.mlx5_dump.specs.Feeding.{AddsLine, Feeds, Keeps, WroteSays, begun, ended};
ghost use Rattle.mlx5_dump.specs.Lines.{AreAnswers, and_last};

use crate::line::put_line_answer;
use crate::status::Status;
use arrayvec::ArrayVec;
use byte_streams::{Sink, Source, write_all};
use std::alloc::{AllocError, Global};

/// How many bytes of a line are kept: one more than the longest dump has, which is a body of 1,040
/// bytes. What comes behind them in a line changes nothing: it is malformed.
pub const LINE_ROOM: usize = 2086;

/// The most bytes that one read asks for.
const PIECE: usize = 4096;

/// The front of the line that is being read.
type Kept = ArrayVec<u8, LINE_ROOM>;

/// Reads the lines of a text from `source` and writes the answer to each to `out`.
///
/// It keeps a piece of the text, the line that has begun and the answers to the lines of a piece.
pub fn dump<S: Source, K: Sink>(alloc: Global, source: &mut S, out: &mut K) -> Status
    ensures says { Says (call (S.state source.old) (S.state source.new) (K.state out.old) (K.state out.new)) result }
{
    match answered(alloc, source, out) {
        Ok(()) => Status::Done,
        Err(status) => status,
    }
}

/// Answers all lines, or stops with the status that ends the program.
fn answered<S: Source, K: Sink>(alloc: Global, source: &mut S, out: &mut K) -> Result<(), Status>
    ensures { Says (call (S.state source.old) (S.state source.new) (K.state out.old) (K.state out.new)) (status_of result) }
{
    let mut kept = Kept::new();
    let mut answers = Vec::new(alloc);
    let mut piece = [0; PIECE];
    for _ in 0..u64::MAX {
        match source.read(&mut piece) {
            Ok(0) => return answer_last(kept.as_slice(), &mut answers, out),
            Ok(count) => answer_piece(&mut kept, &mut answers, &piece[..count], out)?,
            Err(_) => return Err(Status::ReadFault),
        }
    }
    Err(Status::Limit)
}

/// Keeps one more byte of a line, where there is room for it.
fn keep(kept: &mut Kept, byte: u8)
    ensures { (line : List ℕ) → Keeps kept.old.items line → Keeps kept.new.items (line ++ byte ∷ []) }
{
    if !kept.is_full() {
        kept.push(byte);
    }
}

/// Adds the answer to a line, of which the front was kept, and a line end.
fn answer_line(kept: &[u8], answers: &mut Vec<u8>) -> Result<(), AllocError>
    ensures { OnOk result ((line : List ℕ) → Keeps kept.now line → AddsLine line answers.old.items answers.new.items) }
{
    put_line_answer(answers, kept)?;
    answers.extend_from_slice(b"\n")
}

/// Answers the line that ends with this byte, or keeps the byte of a line.
fn feed_byte(kept: &mut Kept, answers: &mut Vec<u8>, byte: u8) -> Result<(), AllocError>
    ensures { OnOk result ((line piece old : List ℕ) → Feeds line piece kept.old.items old answers.old.items
        → Feeds line (piece ++ byte ∷ []) kept.new.items old answers.new.items) }
{
    if byte != b'\n' {
        keep(kept, byte);
        return Ok(());
    }
    answer_line(kept.as_slice(), answers)?;
    kept.clear();
    Ok(())
}

/// Answers the lines that end in a piece of the text, and keeps what then begins.
fn feed(kept: &mut Kept, answers: &mut Vec<u8>, piece: &[u8]) -> Result<(), AllocError>
    ensures { OnOk result ((line : List ℕ) → Keeps kept.old.items line
        → Feeds line piece.now kept.new.items answers.old.items answers.new.items) }
{
    for byte in piece {
        feed_byte(kept, answers, *byte)?;
    }
    Ok(())
}

/// Answers the lines that end in a piece of the text, and writes the answers.
fn answer_piece<K: Sink>(
    kept: &mut Kept,
    answers: &mut Vec<u8>,
    piece: &[u8],
    out: &mut K,
) -> Result<(), Status>
    ensures says { (line : List ℕ) → Keeps kept.old.items line
        → WroteSays (ended line piece.now) (K.state out.old) (K.state out.new) (status_of result) }
    ensures keeps { OnOk result ((line : List ℕ) → Keeps kept.old.items line → Keeps kept.new.items (begun line piece.now)) }
    ensures stops { IfErr result (λ status. status ≢ Status.Done) }
    ensures never_falls { (K.state out.old).faults ≤ (K.state out.new).faults }
{
    answers.clear();
    match feed(kept, answers, piece) {
        Ok(()) => write_answers(out, answers.as_slice()),
        Err(_) => Err(Status::NoMemory),
    }
}

/// Answers a last line that has no line end, unless it is empty, and writes the answer.
fn answer_last<K: Sink>(kept: &[u8], answers: &mut Vec<u8>, out: &mut K) -> Result<(), Status>
    ensures says { (line : List ℕ) → Keeps kept.now line
        → WroteSays (and_last [] line) (K.state out.old) (K.state out.new) (status_of result) }
{
    if kept.is_empty() {
        return Ok(());
    }
    answers.clear();
    match answer_line(kept, answers) {
        Ok(()) => write_answers(out, answers.as_slice()),
        Err(_) => Err(Status::NoMemory),
    }
}

/// Writes the answers to some lines.
fn write_answers<K: Sink>(out: &mut K, answers: &[u8]) -> Result<(), Status>
    ensures says { (lines : List (List ℕ)) → AreAnswers lines answers.now
        → WroteSays lines (K.state out.old) (K.state out.new) (status_of result) }
    ensures stops { IfErr result (λ status. status ≢ Status.Done) }
    ensures never_falls { (K.state out.old).faults ≤ (K.state out.new).faults }
{
    match write_all(out, answers) {
        Ok(()) => Ok(()),
        Err(_) => Err(Status::WriteFault),
    }
}
