//! Where the queues of a scenario's declared objects lie on the bus, as the places that the queues' crates take: the
//! send and the receive queue of each queue pair, and each completion queue. No word is in two of them.
#![tactic(auto)]

mod completion_queue;
mod ended;
pub mod laws;
mod sizes;
mod work_queue;

pub use completion_queue::completion_place;
pub use ended::ENDED_WORD;
pub use work_queue::{receive_place, send_place};
