//! The adapter's tables and the execution of commands.
//!
//! `DeviceTables` is what the commands of an adapter change: how far it is started, its pages, and which objects
//! live. `execute` does one command and gives its reply. It has no words and makes no bus operation.
#![tactic(auto)]

pub mod laws;
mod objects;
mod refusal;
mod shapes;
mod tables;
mod users;

pub use objects::Pair;
pub use refusal::Refusal;
pub use shapes::{CqShape, EqShape, QpShape};
pub use tables::{CqNow, DeviceTables, QpNow};
