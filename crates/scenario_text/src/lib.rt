//! Scenario texts: what a user writes, and the value that it spells.
#![tactic(auto)]

mod after;
mod bounds;
mod built;
mod calls;
mod declare;
mod fault;
mod keyword;
pub mod laws;
pub mod lines;
mod names;
mod parse;
mod parts;
mod rules;
mod scenario;
mod segment;
mod slot;
mod sofar;
mod uses;
mod values;

pub use fault::{LimitName, ScenarioFault, TextRule};
pub use parse::parse_scenario;
pub use scenario::{Plan, PlanItem, Scenario, ScenarioParts};
