//! What an operation of a post tells.

/// What an operation of a post tells.
#[derive(Clone, Copy)]
pub(crate) enum PostStep {
    /// The post goes on.
    Nothing,
    /// The queue took the request that came next.
    Wrote,
    /// The queue is full.
    Full { head: u64, tail: u64 },
    /// The record was stored.
    Rang,
}
