//! What an entry says of a work queue.
ghost use Rattle.std.specs.Prelude.{◌≡◌, ◌++◌, OnOk};
ghost use Rattle.verbs_types.specs.declared.entry.What.TheVariants as what;
ghost use Rattle.transcript_text.specs.Numbers.{IsQueue};
ghost use Rattle.transcript_text.specs.Fields.{row_text};

use crate::completion::put_queue;
use crate::names::srq_name;
use crate::request::put_items;
use crate::writer::TextWriter;
use verbs_types::{Item, Lines, NoMemory, Queue};

pub(crate) fn put_post(
    out: &mut TextWriter,
    lines: &Lines,
    queue: Queue,
    items: &[Item],
) -> Result<(), NoMemory>
    requires { IsQueue lines.now queue }
    ensures { OnOk result (out.new ≡ out.old ++ row_text lines.now (what.Post queue items.now)) }
{
    out.put_field(b"post")?;
    put_queue(out, lines, queue)?;
    put_items(out, items)
}

pub(crate) fn put_full(
    out: &mut TextWriter,
    lines: &Lines,
    queue: Queue,
    pending: u64,
    head: u64,
    tail: u64,
) -> Result<(), NoMemory>
    requires { IsQueue lines.now queue }
    ensures { OnOk result (out.new ≡ out.old ++ row_text lines.now (what.PostFull queue pending head tail)) }
{
    out.put_field(b"full")?;
    put_queue(out, lines, queue)?;
    out.put_number_field(pending)?;
    out.put_number_field(head)?;
    out.put_number_field(tail)
}

pub(crate) fn put_retire(
    out: &mut TextWriter,
    lines: &Lines,
    queue: Queue,
    count: u64,
) -> Result<(), NoMemory>
    requires { IsQueue lines.now queue }
    ensures { OnOk result (out.new ≡ out.old ++ row_text lines.now (what.Retire queue count)) }
{
    out.put_field(b"retire")?;
    put_queue(out, lines, queue)?;
    out.put_number_field(count)
}

pub(crate) fn put_free(out: &mut TextWriter, lines: &Lines, srq: u32) -> Result<(), NoMemory>
    ensures { OnOk result (out.new ≡ out.old ++ row_text lines.now (what.Free srq)) }
{
    out.put_field(b"free")?;
    out.put_field(srq_name(lines, srq))
}

pub(crate) fn put_fetch(
    out: &mut TextWriter,
    lines: &Lines,
    queue: Queue,
    number: u64,
) -> Result<(), NoMemory>
    requires { IsQueue lines.now queue }
    ensures { OnOk result (out.new ≡ out.old ++ row_text lines.now (what.Fetch queue number)) }
{
    out.put_field(b"fetch")?;
    put_queue(out, lines, queue)?;
    out.put_number_field(number)
}

pub(crate) fn put_take(out: &mut TextWriter, lines: &Lines, queue: Queue) -> Result<(), NoMemory>
    requires { IsQueue lines.now queue }
    ensures { OnOk result (out.new ≡ out.old ++ row_text lines.now (what.TakeReceive queue)) }
{
    out.put_field(b"take")?;
    put_queue(out, lines, queue)
}
