//! The bodies of commands: what the input and the output of each command carry, as bytes.
//!
//! - [`encode`] and [`decode`] write and read a command's input, [`BodyFault`] says why it is refused.
//! - [`encode_reply`] and [`decode_reply`] write and read its output.
//! - [`laws`] says that a reply is read as it was written.
//!
//! Opcodes and modifiers are those of the Programmer's Reference Manual; the lengths and the places of
//! numbers and parameters are this project's own profile.
#![tactic(auto)]

mod command;
mod contexts;
mod decoder;
mod encoder;
mod head;
mod kind;
pub mod laws;
mod reply;

pub use command::{Command, PageList, PageUse};
pub use contexts::{CqContext, EqBlock, MkeyContext, QpBlock, SrqBlock};
pub use decoder::{BodyFault, decode, output_length};
pub use encoder::encode;
pub use reply::{Reply, decode_reply, encode_reply};
