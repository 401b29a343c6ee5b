//! The arms of a completion queue in bus words, between a host that asks to be told of a completion,
//! the reader of the event queue that tells it, and the adapter that answers an arm with an event.
//!
//! An arm lies in word 1 of the queue's doorbell record and in its arm register, and carries a
//! number of 2 bits that the reader of events counts up in the arm sequence number. `CqArmer`,
//! `EventReader` and `ArmDevice` are the machines of the three sides, one operation on one word a
//! turn, and `laws::stands` says that all of it together is a plain object of whole numbers, in which
//! an arm that was seen and passed has its event, once.
#![tactic(auto)]

mod arm_word;
mod armer;
mod device;
pub mod laws;
mod place;
mod reader;

pub use arm_word::{Arm, Armed, NO_ARM};
pub use armer::CqArmer;
pub use device::{ArmDevice, ArmSeen};
pub use place::ArmPlace;
pub use reader::{EventReader, Raised};
