//! The parts of the abstract state.

use crate::completion::Completion;

/// The state of a queue pair (InfiniBand specification): reset, initialised, ready to receive, ready to send,
/// error.
#[derive(Clone, Copy, Debug, PartialEq, Eq)]
pub enum QpState {
    Reset,
    Init,
    Rtr,
    Rts,
    Err,
}

/// A queue pair as the adapter knows it.
#[derive(Clone, Copy, Debug, PartialEq, Eq)]
pub struct QueuePair {
    pub state: QpState,
    /// The number of the completion queue of its send queue.
    pub send_cq: u32,
    /// The number of the completion queue of its receive queue.
    pub recv_cq: u32,
}

/// A completion with the number, from 1, of the request that it completes.
#[derive(Clone, Copy, Debug, PartialEq, Eq)]
pub struct Unpolled {
    pub completion: Completion,
    pub number: u64,
}

/// What the adapter owes for the work entry that it is in.
#[derive(Clone, Copy, Debug, PartialEq, Eq)]
pub enum Act {
    /// This completion for the completion queue of this number.
    Complete { cq: u32, owed: Unpolled },
}
