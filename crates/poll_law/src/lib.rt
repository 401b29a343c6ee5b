//! The law of calls that take completions: whichever of its operations a thread makes next, what holds between
//! operations holds after it, and what it says is a legal step of verbs queues.
#![tactic(auto)]

pub mod laws;
