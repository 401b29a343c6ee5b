//! A completion queue in bus words, between the adapter that publishes completions and the host
//! that polls them.
//!
//! The queue is an owner ring whose entries are completions. `CqDevice` and `CqHost` are the
//! machines of its two sides, one operation on one word a turn, and `laws::stands` says that all of
//! it together is a list of completions. A queue that was full when a completion was to be
//! published has overrun, and takes no completion any more. Arms are not built yet.
#![tactic(auto)]

mod device;
mod host;
pub mod laws;
mod place;

pub use device::{CqDevice, CqSeen};
pub use host::{CqDone, CqHost};
pub use place::CqPlace;
