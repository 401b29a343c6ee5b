//! The law of all actors together: whatever the order in which the adapter and the threads take turns, word by word,
//! what their marked operations say is a legal history of verbs queues, in which each thread's calls are answered once
//! and in order.
#![tactic(auto)]

pub mod laws;
