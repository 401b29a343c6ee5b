//! What a thread of a scenario is to do.

use crate::request::{Receive, Request};
use crate::sequence::Sequence;

/// A call of a thread.
#[derive(Clone, Debug, Drop)]
pub enum Call {
    /// Posts these requests on the send queue of a queue pair (`ibv_post_send`).
    Post {
        qp: u32,
        requests: Sequence<Request>,
    },
    /// Posts these receives on the receive queue of a queue pair (`ibv_post_recv`).
    Recv {
        qp: u32,
        receives: Sequence<Receive>,
    },
    /// Takes at most this many completions (`ibv_poll_cq`), 1 to 16.
    Poll {
        cq: u32,
        max: u32,
    },
    /// Takes this many completions, one by one, waiting for each.
    Drain {
        cq: u32,
        count: u32,
    },
}
