//! The command interface of the Programmer's Reference Manual as bytes: command queue entries and
//! mailbox blocks, with their signatures.
//!
//! - [`encode_entry`] and [`decode_entry`] write and read a command queue entry, [`sign_entry`] signs one.
//! - [`encode_blocks`] and [`read_block`] write and read the mailbox blocks that input and output past
//!   16 bytes lie in.
//! - [`Delivery`] says why an entry or a block is refused.
#![tactic(auto)]

mod block;
mod delivery;
mod entry;
mod signature;

pub use block::{Block, encode_blocks, read_block, sign_block};
pub use delivery::Delivery;
pub use entry::{CmdEntry, decode_entry, encode_entry, sign_entry};
pub use signature::exclusive_or;
