//! How many operations of their own actors make: a thread for a call, in a drain between two looks and from a look
//! that finds a completion to its entry, and the adapter between the entries of one request. Whoever keeps an actor's
//! rule keeps these bounds, whatever the others do.
#![tactic(auto)]

pub mod laws;
