//! Send and receive queues in bus words: a thread that posts, a poller that retires, and the adapter
//! that reads.
//!
//! A queue is a ring of blocks with an id word and, for a send queue, a head word beside each block,
//! a tail word, a doorbell record and, for a send queue, a register. `WqPoster`, `WqRetirer` and
//! `WqDevice` are the machines of its three users, one operation on one word a turn, and
//! `laws::stands` says that all of it together is a list of requests.
#![tactic(auto)]

mod device;
pub mod laws;
mod place;
mod poster;
mod retirer;

pub use device::{WqDevice, WqSeen};
pub use place::WqPlace;
pub use poster::{Posted, WqPoster};
pub use retirer::{Retired, WqRetirer};
