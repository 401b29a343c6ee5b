//! A thread of a scenario as an actor over the words: it makes its calls one after another, one bus operation a turn,
//! over the sides of the queues that they name, and at last sets its bit in the word of actors that ended.
#![tactic(auto)]

mod actor;
mod end;
mod given;
mod polls;
mod posts;
mod progress;
mod sides;
mod thread;

pub use actor::ThreadActor;
