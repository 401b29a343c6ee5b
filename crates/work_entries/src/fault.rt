//! Why a send entry is refused.

use thiserror::Error;

/// A rule of send entries. `Index` and `Number` are for the reader who knows what they must be; the
/// decoder judges the others.
///
/// The rules and their names are this project's own.
#[derive(Clone, Copy, Debug, PartialEq, Eq, Error)]
pub enum EntryRule {
    /// The opcode is in the table, and the opcode modifier is 0.
    #[error("unknown opcode")]
    Opcode,
    /// The counts of units and blocks fit the opcode, each other, and inline data.
    #[error("wrong size")]
    Size,
    /// The index is that of the entry's first block.
    #[error("wrong block index")]
    Index,
    /// The queue pair number is that of the queue.
    #[error("wrong queue pair number")]
    Number,
    /// No flag but those of the profile is set.
    #[error("unknown flag")]
    Flags,
    /// What the profile reserves is 0.
    #[error("reserved bits are not 0")]
    Reserved,
}

/// The first unit of an entry that breaks a rule, from 0 for the control segment, and its first rule.
#[derive(Clone, Copy, Debug, PartialEq, Eq, Error)]
#[error("unit {unit}: {why}")]
pub struct BadEntry {
    pub unit: u32,
    pub why: EntryRule,
}
