//! The texts of queues and completions.
ghost use Rattle.std.specs.Prelude.{◌≡◌, ◌++◌, codes, OnOk};
ghost use Rattle.transcript_text.specs.Numbers.{IsQueue, IsCompletion};
ghost use Rattle.transcript_text.specs.History as texts;

use crate::names::{qp_name, srq_name};
use crate::writer::TextWriter;
use verbs_types::{Completion, Kind, Lines, NoMemory, Queue};

/// Adds a space and the name of a queue.
pub(crate) fn put_queue(out: &mut TextWriter, lines: &Lines, queue: Queue) -> Result<(), NoMemory>
    requires { IsQueue lines.now queue }
    ensures { OnOk result (out.new ≡ out.old ++ (codes " " ++ texts.queue_name lines.now queue)) }
{
    match queue {
        Queue::Send(qp) => {
            out.put_field(qp_name(lines, qp))?;
            out.put_bytes(b".s")
        }
        Queue::Recv(qp) => {
            out.put_field(qp_name(lines, qp))?;
            out.put_bytes(b".r")
        }
        Queue::Shared(srq) => out.put_field(srq_name(lines, srq)),
    }
}

/// Adds a space and a completion, its parts with colons between them.
pub(crate) fn put_completion(
    out: &mut TextWriter,
    lines: &Lines,
    completion: &Completion,
) -> Result<(), NoMemory>
    requires { IsCompletion lines.now completion.now }
    ensures { OnOk result (out.new
        ≡ out.old ++ (codes " " ++ texts.completion_text lines.now completion.now)) }
{
    put_queue(out, lines, completion.queue)?;
    out.put_number_part(completion.id)?;
    out.put_number_part(u64::from(completion.status))?;
    out.put_part(kind_name(completion.kind))?;
    out.put_number_part(u64::from(completion.len))?;
    put_immediate(out, completion.imm)?;
    out.put_part(solicited(completion.solicited))
}

fn kind_name(kind: Kind) -> &'static [u8]
    ensures { result.now ≡ texts.kind_name kind }
{
    match kind {
        Kind::Nop => b"nop",
        Kind::Send => b"send",
        Kind::Write => b"write",
        Kind::Read => b"read",
        Kind::Cas => b"cas",
        Kind::Faa => b"faa",
        Kind::Recv => b"recv",
        Kind::RecvImm => b"recvimm",
        Kind::RecvWrite => b"recvwrite",
        Kind::Failed => b"failed",
    }
}

fn put_immediate(out: &mut TextWriter, imm: Option<u32>) -> Result<(), NoMemory>
    ensures { OnOk result (out.new ≡ out.old ++ (codes ":" ++ texts.immediate_text imm)) }
{
    match imm {
        Some(imm) => out.put_number_part(u64::from(imm)),
        None => out.put_part(b"-"),
    }
}

fn solicited(solicited: bool) -> &'static [u8]
    ensures { result.now ≡ texts.solicited_text solicited }
{
    if solicited { b"s" } else { b"-" }
}
