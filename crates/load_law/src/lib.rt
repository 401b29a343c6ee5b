//! The law of the loads of a poll: of the entries of its completion queue, and of the words of the work queue that
//! a completion names. Each comes to one of the outcomes of `poll_outcomes`.
#![tactic(auto)]

pub mod laws;
