//! How far a poll has come.
use arrayvec::ArrayVec;
use cqe_format::Cqe;

/// The end of a completion that was taken: the tail that retires its request.
#[derive(Clone, Copy, Debug, Default, PartialEq, Eq, Drop)]
pub struct End {
    /// The place of its queue among the send queues of the poll.
    pub queue: usize,
    /// The tail to store; 0 where the completion is of none of the queues.
    pub end: u64,
}

/// The ends of the completions that a poll took, in order.
pub type Ends = ArrayVec<End, 16>;

/// How far a poll has come, by what its next operation is.
#[derive(Debug, Drop)]
pub enum PollState {
    /// No poll is under way.
    Idle,
    /// It looks at the next entry, or reads it. It wants `max` completions, and `ends` are those of the
    /// completions that it has taken.
    Polling {
        max: u32,
        ends: Ends,
    },
    /// It looks the request of this completion up, in the queue of this place.
    LookingUp {
        max: u32,
        ends: Ends,
        completion: Cqe,
        queue: usize,
    },
    /// It took `taken` completions, and stores the first of the ends that are left.
    Retiring {
        taken: u32,
        empty: Option<u64>,
        left: Ends,
    },
    /// It took `taken` completions, and stores the consumer index.
    Acking {
        taken: u32,
        empty: Option<u64>,
    },
}
