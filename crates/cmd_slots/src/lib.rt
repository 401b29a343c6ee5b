//! Command slots: how a host asks the adapter for a command and is answered, as words.
//!
//! Each of 32 hosts has a slot of the command queue: an entry and four mailbox blocks. A command is
//! stored there and rung for by one bit of a word that all slots share; the adapter swaps that word,
//! reads the commands of the bits that it found, and stores the answers where the commands were.
//! [`SlotHost`] and [`SlotDevice`] are the two sides of one slot, [`SlotBits`] is the adapter's swap.
//! `laws::stands` says that all of it together is, for each slot, a question and its answer.
#![tactic(auto)]

mod answer;
mod answering;
mod asking;
mod bits;
mod blocks;
mod bytes;
mod device;
mod host;
pub mod laws;
mod output;
mod place;
mod question;

pub use answer::Answer;
pub use bits::SlotBits;
pub use device::{SlotDevice, SlotDone};
pub use host::{SlotHost, Waiting};
