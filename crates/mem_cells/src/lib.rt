//! Data memory in bus words, a word a byte, for any number of actors.
//!
//! Who writes a byte swaps in a word that names the writer and counts its writes, so that a word
//! tells which write left it. `CellUser` makes the operations of one actor, one on one word a call,
//! and `laws::stands` says that all of it together is a table of bytes.
#![tactic(auto)]

mod cell;
pub mod laws;
mod user;

pub use cell::{byte_of, count_of, pack, writer_of};
pub use user::CellUser;
