//! The ends that a poll adds to the queues of what it took.
ghost use Rattle.std.specs.Prelude.{◌≡◌, length, map, OnOk};
ghost use Rattle.verbs_model.specs.Ends.{queue_of, ArePlaced, HaveRoom, ended};
ghost use Rattle.verbs_model.specs.Tables as tables;

use crate::work_queue::WorkQueue;
use std::alloc::AllocError;
use verbs_types::{FIRST_QP, Queue, Unpolled};

/// Where a queue stands that lives: the send queue of the queue pair at place i at 2i, its receive queue
/// at 2i + 1.
pub(super) fn place_of(queue: Queue) -> usize
    ensures { result ≡ tables.place_of queue }
{
    match queue {
        Queue::Send(qp) => 2 * qp.saturating_sub(FIRST_QP) as usize,
        Queue::Recv(qp) => 2 * qp.saturating_sub(FIRST_QP) as usize + 1,
        Queue::Shared(_) => 0,
    }
}

/// Makes room for as many ends as there are completions, in the queue of each.
pub(super) fn reserve_each(queues: &mut [WorkQueue], taken: &[Unpolled]) -> Result<(), AllocError>
    requires { ArePlaced (length queues.old) taken.now }
    ensures unchanged { map queue_of queues.new ≡ map queue_of queues.old }
    ensures room { OnOk result (HaveRoom queues.new (length taken.now) taken.now) }
{
    for polled in taken {
        queues[place_of(polled.completion.queue)].reserve_ends(taken.len())?;
    }
    Ok(())
}

/// Adds the number of each completion's request to its queue.
pub(super) fn end_each(queues: &mut [WorkQueue], taken: &[Unpolled])
    requires placed { ArePlaced (length queues.old) taken.now }
    requires room { HaveRoom queues.old (length taken.now) taken.now }
    ensures { map queue_of queues.new ≡ ended (map queue_of queues.old) taken.now }
{
    for polled in taken {
        queues[place_of(polled.completion.queue)].end(polled.number);
    }
}
