//! What an entry says of a completion queue.
ghost use Rattle.std.specs.Prelude.{◌≡◌, ◌++◌, map, All, OnOk};
ghost use Rattle.verbs_types.specs.declared.entry.What.TheVariants as what;
ghost use Rattle.transcript_text.specs.Numbers.{IsCq, IsQp, IsCompletion};
ghost use Rattle.transcript_text.specs.Fields.{spaced, row_text};
ghost use Rattle.transcript_text.specs.History as texts;

use crate::completion::put_completion;
use crate::names::{cq_name, qp_name};
use crate::writer::TextWriter;
use verbs_types::{Completion, Lines, NoMemory};

pub(crate) fn put_poll(
    out: &mut TextWriter,
    lines: &Lines,
    cq: u32,
    max: u64,
    completions: &[Completion],
) -> Result<(), NoMemory>
    requires cq { IsCq lines.now cq }
    requires completions { All (IsCompletion lines.now) completions.now }
    ensures { OnOk result (out.new ≡ out.old ++ row_text lines.now (what.Poll cq max completions.now)) }
{
    out.put_field(b"poll")?;
    out.put_field(cq_name(lines, cq))?;
    out.put_number_field(max)?;
    if completions.is_empty() {
        out.put_field(b"empty")
    } else {
        put_completions(out, lines, completions)
    }
}

fn put_completions(
    out: &mut TextWriter,
    lines: &Lines,
    completions: &[Completion],
) -> Result<(), NoMemory>
    requires { All (IsCompletion lines.now) completions.now }
    ensures { OnOk result (out.new
        ≡ out.old ++ spaced (map (texts.completion_text lines.now) completions.now)) }
{
    for completion in completions {
        put_completion(out, lines, completion)?;
    }
    Ok(())
}

pub(crate) fn put_ack(
    out: &mut TextWriter,
    lines: &Lines,
    cq: u32,
    index: u64,
) -> Result<(), NoMemory>
    requires { IsCq lines.now cq }
    ensures { OnOk result (out.new ≡ out.old ++ row_text lines.now (what.Ack cq index)) }
{
    out.put_field(b"ack")?;
    out.put_field(cq_name(lines, cq))?;
    out.put_number_field(index)
}

pub(crate) fn put_clean(
    out: &mut TextWriter,
    lines: &Lines,
    cq: u32,
    qp: u32,
    index: u64,
) -> Result<(), NoMemory>
    requires cq { IsCq lines.now cq }
    requires qp { IsQp lines.now qp }
    ensures { OnOk result (out.new ≡ out.old ++ row_text lines.now (what.Clean cq qp index)) }
{
    out.put_field(b"clean")?;
    out.put_field(cq_name(lines, cq))?;
    out.put_field(qp_name(lines, qp))?;
    out.put_number_field(index)
}

pub(crate) fn put_publish(
    out: &mut TextWriter,
    lines: &Lines,
    cq: u32,
    completion: &Completion,
) -> Result<(), NoMemory>
    requires cq { IsCq lines.now cq }
    requires completion { IsCompletion lines.now completion.now }
    ensures { OnOk result (out.new ≡ out.old ++ row_text lines.now (what.Publish cq completion.now)) }
{
    out.put_field(b"publish")?;
    out.put_field(cq_name(lines, cq))?;
    put_completion(out, lines, completion)
}

pub(crate) fn put_overrun(
    out: &mut TextWriter,
    lines: &Lines,
    cq: u32,
    index: u64,
    acked: u64,
) -> Result<(), NoMemory>
    requires { IsCq lines.now cq }
    ensures { OnOk result (out.new ≡ out.old ++ row_text lines.now (what.Overrun cq index acked)) }
{
    out.put_field(b"overrun")?;
    out.put_field(cq_name(lines, cq))?;
    out.put_number_field(index)?;
    out.put_number_field(acked)
}

pub(crate) fn put_lost(out: &mut TextWriter, lines: &Lines, cq: u32) -> Result<(), NoMemory>
    requires { IsCq lines.now cq }
    ensures { OnOk result (out.new ≡ out.old ++ row_text lines.now (what.Lost cq)) }
{
    out.put_field(b"lost")?;
    out.put_field(cq_name(lines, cq))
}
