//! Completions of requests, as a thread is given them.
ghost use Rattle.std.specs.Prelude.{◌≡◌};
ghost use Rattle.provider_poll.specs.Completion as words;

use cqe_format::{Cqe, Syndrome, opcode};
use verbs_types::{Completion, Kind, Queue};

/// Whether it reports a request of a send queue.
pub(crate) fn is_of_request(c: &Cqe) -> bool
    ensures { result ≡ words.is_of_request c.now }
{
    c.opcode == opcode::REQUEST || c.opcode == opcode::REQUEST_ERROR
}

/// The completion of the request with this id.
pub(crate) fn completion_of(c: &Cqe, id: u64) -> Completion
    ensures { result ≡ words.completion_of c.now id }
{
    Completion {
        queue: Queue::Send(c.qpn),
        qp: c.qpn,
        id,
        status: status_of(c.syndrome),
        kind: kind_of(c),
        len: c.len,
        imm: None,
        solicited: c.solicited,
    }
}

/// The status of a work completion with this syndrome; 0 where there is none.
fn status_of(syndrome: u8) -> u8
    ensures { result ≡ words.status_of syndrome }
{
    match Syndrome::from_number(syndrome) {
        Some(syndrome) => syndrome.status(),
        None => 0,
    }
}

/// What was completed, by the opcode of the request.
fn kind_of(c: &Cqe) -> Kind
    ensures { result ≡ words.kind_of c.now }
{
    if c.opcode != opcode::REQUEST {
        return Kind::Failed;
    }
    match c.sop {
        0x00 => Kind::Nop,
        0x08 | 0x09 => Kind::Write,
        0x0a | 0x0b => Kind::Send,
        0x10 => Kind::Read,
        0x11 => Kind::Cas,
        0x12 => Kind::Faa,
        _ => Kind::Failed,
    }
}
