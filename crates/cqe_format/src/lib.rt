//! Completion and event queue entries of the Programmer's Reference Manual as words.
//!
//! - [`encode_cqe`] and [`decode_cqe`] write and read a completion, [`Cqe`].
//! - [`encode_eqe`] and [`decode_eqe`] write and read an event of a completion queue.
//! - [`owner_in`] and [`opcode_in`] read what the last word says of the owner, without the other words.
//! - [`NotAnEntry`] says at which byte eight words stop to begin like an entry.
//! - [`opcode`] has the opcodes of completions, [`Syndrome`] the syndromes of errors and their statuses.
//! - [`laws`] says that no two values have a common spelling, and that the owner bit is apart.
#![tactic(auto)]

mod bytes;
mod completion;
mod event;
mod last_word;
pub mod laws;
pub mod opcode;
mod search;
mod syndrome;

pub use completion::{Cqe, decode_cqe, encode_cqe};
pub use event::{decode_eqe, encode_eqe};
pub use last_word::{opcode_in, owner_in};
pub use search::NotAnEntry;
pub use syndrome::Syndrome;
