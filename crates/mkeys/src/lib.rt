//! Memory keys: the table of the regions that have one, and what a key permits.
//!
//! A decision core: it has no words of its own and makes no bus operation. Contracts see a `KeyTable` as a
//! finite map from the index of a key to its region.
#![tactic(auto)]

mod fault;
mod free_places;
pub mod laws;
mod region;
mod table;

pub use fault::{KeyFault, NoFree};
pub use region::{KeyRegion, Right};
pub use table::{KeyTable, PLACES};
