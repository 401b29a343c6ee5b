//! Tests of threads, of the adapter, and of the world in which they take turns, by worked operations of small runs.
//!
//! Each runs a scenario, which makes every machine of its actors: one that gave up for want of memory would give no
//! run.
#![tactic(auto)]

#[cfg(test)]
mod runs;
