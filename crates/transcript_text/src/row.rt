//! What an entry says.
ghost use Rattle.std.specs.Prelude.{◌≡◌, ◌++◌, OnOk};
ghost use Rattle.transcript_text.specs.Numbers.{NamesDeclared};
ghost use Rattle.transcript_text.specs.Fields.{row_text};

use crate::byte_row::put_byte_row;
use crate::command_row::{put_execute, put_reply, put_submit};
use crate::completion_row::{put_ack, put_clean, put_lost, put_overrun, put_poll, put_publish};
use crate::event_row::{put_arm, put_notify, put_take_event};
use crate::queue_row::{put_fetch, put_free, put_full, put_post, put_retire, put_take};
use crate::writer::TextWriter;
use verbs_types::{Lines, NoMemory, What};

/// Adds the fields of a line after its actor.
pub(crate) fn put_what(out: &mut TextWriter, lines: &Lines, what: &What) -> Result<(), NoMemory>
    requires { NamesDeclared lines.now what.now }
    ensures { OnOk result (out.new ≡ out.old ++ row_text lines.now what.now) }
{
    match what {
        What::Post { queue, items } => put_post(out, lines, *queue, items.as_slice()),
        What::PostFull {
            queue,
            pending,
            head,
            tail,
        } => put_full(out, lines, *queue, *pending, *head, *tail),
        What::Poll {
            cq,
            max,
            completions,
        } => put_poll(out, lines, *cq, *max, completions.as_slice()),
        What::Retire { queue, count } => put_retire(out, lines, *queue, *count),
        What::Free { srq } => put_free(out, lines, *srq),
        What::Ack { cq, index } => put_ack(out, lines, *cq, *index),
        What::Arm {
            cq,
            kind,
            index,
            number,
        } => put_arm(out, lines, b"arm", *cq, *kind, *index, *number),
        What::TakeEvent { eq, event } => put_take_event(out, lines, *eq, *event),
        What::Submit { command } => put_submit(out, lines, command),
        What::Reply { command, answer } => put_reply(out, lines, command, *answer),
        What::ReadByte { addr, byte } => put_byte_row(out, b"read", *addr, *byte),
        What::WriteByte { addr, byte } => put_byte_row(out, b"write", *addr, *byte),
        What::Clean { cq, qp, index } => put_clean(out, lines, *cq, *qp, *index),
        What::Fetch { queue, number } => put_fetch(out, lines, *queue, *number),
        What::TakeReceive { queue } => put_take(out, lines, *queue),
        What::GetByte { addr, byte } => put_byte_row(out, b"get", *addr, *byte),
        What::PutByte { addr, byte } => put_byte_row(out, b"put", *addr, *byte),
        What::Publish { cq, completion } => put_publish(out, lines, *cq, completion),
        What::SeeArm {
            cq,
            kind,
            index,
            number,
        } => put_arm(out, lines, b"seearm", *cq, *kind, *index, *number),
        What::Event { eq, event } => put_notify(out, lines, *eq, *event),
        What::Overrun { cq, index, acked } => put_overrun(out, lines, *cq, *index, *acked),
        What::Lost { cq } => put_lost(out, lines, *cq),
        What::Execute {
            actor,
            command,
            answer,
        } => put_execute(out, lines, *actor, command, *answer),
    }
}
