//! The text of a history.
ghost use Rattle.std.specs.Prelude.{◌≡◌, ◌++◌, length, All, OnOk, IfOk};
ghost use Rattle.std.specs.List.{flat_map};
ghost use Rattle.transcript_text.specs.Numbers.{IsEntry};
ghost use Rattle.transcript_text.specs.History as texts;

use crate::head::put_head;
use crate::names::actor_name;
use crate::row::put_what;
use crate::writer::TextWriter;
use std::alloc::Global;
use verbs_types::{Declared, Entry, Lines, NoMemory};

/// Prints a history, in this project's own form: a title, the declaration and connect lines, a line
/// an entry, and the count of entries. The only error is that memory ran out.
pub fn print_history(
    alloc: Global,
    declared: &Declared,
    history: &[Entry],
) -> Result<Vec<u8>, NoMemory>
    requires { All (IsEntry declared.now) history.now }
    ensures { IfOk result (λ text. text.items ≡ texts.history_text declared.now history.now) }
{
    let mut out = TextWriter::new(alloc);
    put_history(&mut out, declared, history)?;
    Ok(out.into_vec())
}

/// Adds a history, as `print_history` prints it.
pub fn put_history(
    out: &mut TextWriter,
    declared: &Declared,
    history: &[Entry],
) -> Result<(), NoMemory>
    requires { All (IsEntry declared.now) history.now }
    ensures { OnOk result (out.new ≡ out.old ++ texts.history_text declared.now history.now) }
{
    out.put_bytes(b"mlx5 history\n")?;
    put_head(out, declared)?;
    put_entries(out, declared.lines(), history)?;
    put_end(out, history.len() as u64)
}

/// Adds the last line, with the count of entries.
pub(crate) fn put_end(out: &mut TextWriter, count: u64) -> Result<(), NoMemory>
    ensures { OnOk result (out.new ≡ out.old ++ texts.end_text count) }
{
    out.put_bytes(b"end")?;
    out.put_number_field(count)?;
    out.end_line()
}

/// Adds a line an entry.
pub(crate) fn put_entries(
    out: &mut TextWriter,
    lines: &Lines,
    history: &[Entry],
) -> Result<(), NoMemory>
    requires { All (IsEntry lines.now) history.now }
    ensures { OnOk result (out.new ≡ out.old ++ flat_map (texts.entry_text lines.now) history.now) }
{
    for entry in history {
        put_entry(out, lines, entry)?;
    }
    Ok(())
}

fn put_entry(out: &mut TextWriter, lines: &Lines, entry: &Entry) -> Result<(), NoMemory>
    requires { IsEntry lines.now entry.now }
    ensures { OnOk result (out.new ≡ out.old ++ texts.entry_text lines.now entry.now) }
{
    out.put_bytes(actor_name(lines, entry.actor))?;
    put_what(out, lines, &entry.what)?;
    out.end_line()
}
