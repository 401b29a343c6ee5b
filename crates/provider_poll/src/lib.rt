//! The provider's polls: a thread's call to poll a completion queue, as operations on the words of that
//! queue and of the send queues whose completions it takes.
//!
//! `PollSide` takes up to 16 completions in a call. It looks the request of each up before it looks for
//! the next completion, and once it has made its last load it retires them, in order, and stores the
//! consumer index, as `ibv_poll_cq` of the rdma-core mlx5 provider does. It takes completions of send
//! queues: no receive completes yet, and there are no arms.
#![tactic(auto)]

mod answer;
mod completion;
pub mod laws;
mod note;
mod poll;
mod poll_step;
mod send_queue;
mod send_queues;
mod senders;
mod state;
mod stores;
mod turns;

pub use answer::PollAnswer;
pub use poll::PollSide;
pub use state::{End, PollState};
