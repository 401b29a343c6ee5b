//! The word of actors that ended.

/// The word in which actors that end are counted. It stands before all objects.
pub const ENDED_WORD: u32 = 1;
