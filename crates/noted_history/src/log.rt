//! The notes that a run keeps.

use bus_core::Note;

/// The note of an entry, and whose it is.
#[derive(Clone, Copy, Debug, PartialEq, Eq, Drop)]
pub struct Noted {
    pub actor: u8,
    pub note: Note,
}
