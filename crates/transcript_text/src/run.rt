//! The text of a run: of its history, and then of its trace.
ghost use Rattle.std.specs.Prelude.{◌≡◌, ◌++◌, length, All, IfOk};
ghost use Rattle.transcript_text.specs.Numbers.{IsEntry};
ghost use Rattle.transcript_text.specs.History.{history_text};
ghost use Rattle.transcript_text.specs.Trace.{IsOperation, trace_text};

use crate::history::put_history;
use crate::trace::{put_trace, room};
use crate::writer::TextWriter;
use bus_core::TraceEntry;
use std::alloc::Global;
use verbs_types::{Declared, Entry, NoMemory};

/// About as many bytes as an entry of a history has.
const ENTRY: usize = 64;

/// Prints a history and then a trace, as `print_history` and `print_trace` print them, in one text. The only error is
/// that memory ran out.
pub fn print_run(
    alloc: Global,
    declared: &Declared,
    history: &[Entry],
    trace: &[TraceEntry],
    marks: &[bool],
) -> Result<Vec<u8>, NoMemory>
    requires entries { All (IsEntry declared.now) history.now }
    requires lengths { length marks.now ≡ length trace.now }
    requires actors { All (IsOperation declared.now) trace.now }
    ensures { IfOk result (λ text. text.items ≡ history_text declared.now history.now ++ trace_text declared.now trace.now marks.now) }
{
    let lines = declared.lines();
    let room = room(lines, trace.len()).saturating_add(history.len().saturating_mul(ENTRY));
    let mut out = TextWriter::with_capacity(alloc, room)?;
    put_history(&mut out, declared, history)?;
    put_trace(alloc, &mut out, lines, trace, marks)?;
    Ok(out.into_vec())
}
