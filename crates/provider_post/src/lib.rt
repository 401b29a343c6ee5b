//! The provider's posts: a thread's call to post a list of requests or receives, as operations on the
//! words of its queue.
//!
//! `PostSide` posts to the send queue of a queue pair, and `RecvSide` to its receive queue. Each writes
//! the items of a call one after another, as many as the queue has room for, and then rings for all of
//! them at once, as `ibv_post_send` and `ibv_post_recv` of the rdma-core mlx5 provider do.
#![tactic(auto)]

mod answer;
mod call;
mod note;
mod post;
mod post_step;
mod queue_side;
mod recv;
mod start;

pub use answer::{PostAnswer, Room};
pub use call::Call;
pub use post::PostSide;
pub use recv::RecvSide;
