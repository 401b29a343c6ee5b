//! Scenarios that can run give the law of all actors, and each thread, what they ask.
#![tactic(auto)]

pub mod laws;
