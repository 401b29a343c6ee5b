//! The world of a scenario over the words that the provider and the adapter share: the threads of the scenario and the
//! adapter take turns, one operation on one 64-bit word a turn, and the notes of their operations tell which history
//! they spell.
#![tactic(auto)]

mod copies;
mod log;
mod outcome;
mod run;
mod start;
mod turns;
mod world;

pub use outcome::Outcome;
pub use world::World;
