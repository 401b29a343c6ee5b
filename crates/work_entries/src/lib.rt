//! Work queue entries of the Programmer's Reference Manual, in this project's profile: a request of a
//! send queue and the segments of a receive as the 64-bit words that lie in a ring, and back.
//!
//! - [`encode_send`] and [`decode_send`] write and read the entry of a send queue. [`Sent`] is what an
//!   entry says; [`BadEntry`] names the first unit that breaks a rule, and the rule.
//! - [`encode_recv`] and [`decode_recv`] write and read the segments of a receive entry.
//! - [`units_in`], [`opcode_in`] and [`is_wanted`] read the control segment of an entry that is not judged.
//! - [`Opcode`] is the opcode table: which segments the entry of an operation has.
//! - [`laws`] says that no entry has two meanings, that no request has two entries, and that what was
//!   written is read again.
//!
//! No call allocates.
#![tactic(auto)]

mod control;
mod fault;
mod front;
mod inline;
mod inline_bytes;
pub mod laws;
mod opcode;
mod operation;
mod receive;
mod segments;
mod send;
mod sent;
mod sge_array;
mod units;

pub use fault::{BadEntry, EntryRule};
pub use front::{is_wanted, opcode_in, units_in};
pub use inline_bytes::InlineBytes;
pub use opcode::Opcode;
pub use receive::{decode_recv, encode_recv};
pub use send::{decode_send, encode_send};
pub use sent::{Sent, SentBody};
pub use sge_array::SgeArray;
pub use units::SendWords;
