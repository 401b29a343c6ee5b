//! Requests without operation, and their completions.
ghost use Rattle.std.specs.Prelude.{◌≡◌};
ghost use Rattle.sample_objects.specs.Requests as words;

use std::alloc::Global;
use verbs_types::{Body, Completion, FIRST_QP, Kind, Op, Queue, Request, Sequence};

/// The queue pair's queues.
pub const SEND: Queue = Queue::Send(FIRST_QP);

pub const RECV: Queue = Queue::Recv(FIRST_QP);

/// A request without operation.
pub fn nop(alloc: Global, id: u64, wanted: bool) -> Request
    ensures { result ≡ words.nop id wanted }
{
    Request {
        id,
        op: Op::Nop,
        wanted,
        solicited: false,
        fence: false,
        body: Body::Sges(Sequence::from_vec(Vec::new(alloc))),
    }
}

/// The completion of a request without operation of the send queue.
pub fn nop_completion(id: u64) -> Completion
    ensures { result ≡ words.nop_completion id }
{
    Completion {
        queue: SEND,
        qp: FIRST_QP,
        id,
        status: 0,
        kind: Kind::Nop,
        len: 0,
        imm: None,
        solicited: false,
    }
}
