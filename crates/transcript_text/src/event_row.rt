//! What an entry says of an arm or an event.
ghost use Rattle.std.specs.Prelude.{◌≡◌, ◌∷◌, ◌++◌, IfSome, OnOk};
ghost use Rattle.verbs_types.specs.declared.entry.What.TheVariants as what;
ghost use Rattle.transcript_text.specs.Numbers.{IsCq, IsEq, IsEvent};
ghost use Rattle.transcript_text.specs.Fields.{spaced, row_text};
ghost use Rattle.transcript_text.specs.History as texts;

use crate::names::{cq_name, eq_name};
use crate::writer::TextWriter;
use verbs_types::{ArmKind, EventRecord, Lines, NoMemory};

/// Adds a word, and then the arm of a completion queue.
pub(crate) fn put_arm(
    out: &mut TextWriter,
    lines: &Lines,
    word: &[u8],
    cq: u32,
    kind: ArmKind,
    index: u64,
    number: u64,
) -> Result<(), NoMemory>
    requires { IsCq lines.now cq }
    ensures { OnOk result (out.new
        ≡ out.old ++ spaced (word.now ∷ texts.arm_fields lines.now cq kind index number)) }
{
    out.put_field(word)?;
    out.put_field(cq_name(lines, cq))?;
    out.put_field(kind_name(kind))?;
    out.put_number_field(index)?;
    out.put_number_field(number)
}

fn kind_name(kind: ArmKind) -> &'static [u8]
    ensures { result.now ≡ texts.arm_kind_name kind }
{
    match kind {
        ArmKind::Any => b"any",
        ArmKind::Solicited => b"solicited",
    }
}

pub(crate) fn put_take_event(
    out: &mut TextWriter,
    lines: &Lines,
    eq: u32,
    event: Option<EventRecord>,
) -> Result<(), NoMemory>
    requires eq { IsEq lines.now eq }
    requires event { IfSome event (IsEvent lines.now) }
    ensures { OnOk result (out.new ≡ out.old ++ row_text lines.now (what.TakeEvent eq event)) }
{
    out.put_field(b"event")?;
    out.put_field(eq_name(lines, eq))?;
    match event {
        Some(event) => put_event(out, lines, event),
        None => out.put_field(b"none"),
    }
}

pub(crate) fn put_notify(
    out: &mut TextWriter,
    lines: &Lines,
    eq: u32,
    event: EventRecord,
) -> Result<(), NoMemory>
    requires eq { IsEq lines.now eq }
    requires event { IsEvent lines.now event }
    ensures { OnOk result (out.new ≡ out.old ++ row_text lines.now (what.Event eq event)) }
{
    out.put_field(b"notify")?;
    out.put_field(eq_name(lines, eq))?;
    put_event(out, lines, event)
}

/// Adds what an event is of.
fn put_event(out: &mut TextWriter, lines: &Lines, event: EventRecord) -> Result<(), NoMemory>
    requires { IsEvent lines.now event }
    ensures { OnOk result (out.new ≡ out.old ++ spaced (texts.event_fields lines.now event)) }
{
    match event {
        EventRecord::Completion { cq } => {
            out.put_field(b"cq")?;
            out.put_field(cq_name(lines, cq))
        }
        EventRecord::CqError { cq } => {
            out.put_field(b"error")?;
            out.put_field(cq_name(lines, cq))
        }
    }
}
