//! The law of the adapter: whichever of its operations it makes next, what holds between operations holds after it,
//! and what it says is a legal step of verbs queues.
#![tactic(auto)]

pub mod laws;
