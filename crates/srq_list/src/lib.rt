//! A shared receive queue in bus words: a thread that posts receives, a poller that frees their slots,
//! and the adapter that takes receives for all queue pairs of the queue.
//!
//! The slots form a chain: each holds the index of the next one. `SrqPoster` uses the slot at the head
//! of the free ones, `SrqFreer` puts a slot behind the last of them, and `SrqDevice` goes along the
//! chain behind the poster. Each turn is one operation on one word, and `laws::stands` says that all of
//! it together is a list of receives and a queue of slots.
#![tactic(auto)]

mod device;
mod freer;
pub mod laws;
mod place;
mod poster;

pub use device::{SrqDevice, SrqTaken};
pub use freer::{SrqFreed, SrqFreer};
pub use place::SrqPlace;
pub use poster::{SrqPosted, SrqPoster};
