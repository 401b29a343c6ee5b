//! The adapter as one actor that scans the queues, one bus operation a turn.
//!
//! `Device` is the machine. What each of its operations is, what is after it and what a marked one says is
//! the automaton of `specs/Rule.antt`, over definitions alone; `laws` says what holds of all its runs.
#![tactic(auto)]

mod device;
mod entry;
pub mod laws;
mod outcome;
mod pair;
mod publish;
mod scan;
mod start;

pub use device::Device;
