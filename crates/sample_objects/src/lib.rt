//! A small scenario's objects and what is done with them, for tests: the declared lines, the addresses of
//! their words by name, requests, completions and a history.
//!
//! The objects are an event queue of two entries, a protection domain, a completion queue of four entries,
//! and a queue pair whose send queue has four places and whose receive queue has one. The queue pair is
//! connected with itself, and there are two threads:
//!
//! ```text
//! eq e 1
//! pd p
//! cq c 2 2 e 0
//! qp q p c c 2 rq:0 1 0
//! connect q q
//! thread a
//! thread b
//! ```
#![tactic(auto)]

mod history;
mod objects;
mod requests;
pub mod words;

pub use history::two_nops;
pub use objects::{one_pair, with_pair};
pub use requests::{RECV, SEND, nop, nop_completion};
