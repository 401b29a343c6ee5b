//! Where the objects of a scenario stand among the words that the adapter and the provider share, and with which
//! words a run begins. The map is this project's own: the adapter's manual fixes what stands in an object, and
//! leaves to the host where it stands.
//!
//! `Actor` is whoever makes operations on these words. Its notes tell of operations that stand for entries of the
//! history, and `specs/Notes.antt` says when a note fits an entry.
#![tactic(auto)]

mod actor;
mod kind;
pub mod laws;
mod map;
mod note;
mod placed;
mod sizes;
mod start;
mod weight;

pub use actor::Actor;
pub use kind::ObjectKind;
pub use map::{AddressMap, MapFault};
pub use note::EntryNumbers;
pub use sizes::{FIRST_OBJECT, words};
pub use start::set_starts;
pub use weight::notes;
