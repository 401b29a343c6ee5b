//! An event queue in bus words, between the adapter that writes events and the host that takes them.
//!
//! The queue is an owner ring whose entries are events. `EqDevice` and `EqHost` are the machines of
//! its two sides, one operation on one word a turn, and `laws::stands` says that all of it together
//! is a list of events. The adapter looks at no consumer index: it writes an event only where it
//! knows by other means that the queue has room.
#![tactic(auto)]

mod device;
mod host;
pub mod laws;
mod place;

pub use device::EqDevice;
pub use host::{EqHost, EqTaken};
pub use place::EqPlace;
