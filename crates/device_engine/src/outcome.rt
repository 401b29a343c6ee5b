//! What an operation of the adapter comes to.

use bus_core::Note;
use cqe_format::Cqe;

/// What the adapter does next.
#[derive(Clone, Copy)]
pub(crate) enum NextWork {
    /// It goes on with what it is at.
    Same,
    /// It loads the visited pair's record.
    Record,
    /// It reads the pair's next entry.
    Read,
    /// It publishes a completion.
    Publish { cq: u32, completion: Cqe },
    /// It visits the next pair.
    Next,
    /// It visits the first pair.
    First,
}

/// What an operation came to.
#[derive(Clone, Copy)]
pub(crate) struct Outcome {
    pub comes: NextWork,
    pub note: Option<Note>,
}
