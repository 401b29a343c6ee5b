//! The history that the notes of a run's operations tell: the entry of each note, with the lists that a note has no
//! room for.
#![tactic(auto)]

mod completions;
mod entries;
mod log;
mod posting;
mod teller;

pub use entries::history_of;
pub use log::Noted;
pub use posting::Posting;
pub use teller::Teller;
