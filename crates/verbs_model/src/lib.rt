//! The checker of histories: the abstract state of verbs queues as a program, the step of each entry,
//! and whether a history is legal.
#![tactic(auto)]

mod abstract_state;
mod completion_queue;
mod faults;
mod history;
mod rules;
mod step;
mod work;
mod work_queue;

pub use abstract_state::{Abstract, start};
pub use history::check_history;
