//! What a poll comes to.

/// What a poll came to.
#[derive(Clone, Copy, Debug, PartialEq, Eq)]
pub enum PollAnswer {
    /// `taken` completions were taken. Where they are fewer than were asked for, `empty` is the last word
    /// of the entry that software does not own.
    Polled { taken: u32, empty: Option<u64> },
}
