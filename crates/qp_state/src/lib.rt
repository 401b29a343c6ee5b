//! The states of a queue pair, and which commands move it from one to another.
//!
//! A decision core: it has no words and makes no bus operation. `step` is the table of moves.
#![tactic(auto)]

mod moves;

pub use moves::{BadState, QpMove, step};
pub use verbs_types::QpState;
