//! The send queues that complete to a declared completion queue.
ghost use Rattle.std.specs.Prelude.{◌≡◌, ◌<◌, ◌≤◌, ◌++◌, ◌∷◌, [], ◌^◌, if◌then◌else◌, IsTrue, IfOk, OnOk, length};
ghost use Rattle.verbs_types.specs.Lines.{is_among};
ghost use Rattle.verbs_types.specs.declared.declaration.TheConstants.{FIRST_QP};
ghost use Rattle.actor_map.specs.Map.{map_of};
ghost use Rattle.actor_map.specs.Sizes.{words_of};
ghost use Rattle.provider_poll.specs.Fresh as words;

use crate::send_queue::SendQueue;
use crate::send_queues::SendQueues;
use actor_map::AddressMap;
use object_places::send_place;
use std::alloc::Global;
use verbs_types::{Declared, FIRST_QP, NoMemory};

/// The send queues that complete to the completion queue `object`, in the order of their queue pairs'
/// numbers. Nothing of them was retired.
pub(crate) fn fresh_queues(
    alloc: Global,
    d: &Declared,
    map: &AddressMap,
    object: u32,
) -> Result<SendQueues, NoMemory>
    requires map { map.now ≡ map_of d.now }
    requires fits { words_of d.now ≤ 2 ^ 20 }
    ensures { IfOk result (λ queues. queues ≡ words.fresh_queues d.now object) }
{
    let mut queues = Vec::new(alloc);
    let mut places = Vec::new(alloc);
    for pair in 0..queue_pairs(d) {
        let place = next_place(d, object, FIRST_QP + pair, queues.len());
        add_place(&mut places, place)?;
        add(&mut queues, d, map, object, FIRST_QP + pair)?;
    }
    Ok(SendQueues::over(queues, places))
}

/// How many queue pairs there are.
fn queue_pairs(d: &Declared) -> u32
    ensures count { result ≡ length d.now.qps }
    ensures few { result ≤ 64 }
{
    d.lines().qps.len() as u32
}

/// The place of a queue pair's queue behind `queues` others; none where it completes elsewhere.
fn next_place(d: &Declared, object: u32, qp: u32, queues: usize) -> Option<usize>
    requires { IsTrue (is_among FIRST_QP (length d.now.qps) qp) }
    ensures { result ≡ words.next_place d.now object qp queues }
{
    if completes_to(d, object, qp) {
        Some(queues)
    } else {
        None
    }
}

/// Adds the place of the next queue pair's queue.
fn add_place(places: &mut Vec<Option<usize>>, place: Option<usize>) -> Result<(), NoMemory>
    ensures { OnOk result (places.new.items ≡ places.old.items ++ place ∷ []) }
{
    match places.push(place) {
        Ok(()) => Ok(()),
        Err(_) => Err(NoMemory),
    }
}

/// Adds the send queue of a queue pair, where it completes to the completion queue `object`.
fn add(
    queues: &mut Vec<SendQueue>,
    d: &Declared,
    map: &AddressMap,
    object: u32,
    qp: u32,
) -> Result<(), NoMemory>
    requires qp { IsTrue (is_among FIRST_QP (length d.now.qps) qp) }
    requires low { qp < 2 ^ 24 }
    requires map { map.now ≡ map_of d.now }
    requires fits { words_of d.now ≤ 2 ^ 20 }
    ensures { OnOk result (queues.new.items ≡ queues.old.items ++ (if words.completes_to d.now object qp then words.fresh_sender d.now qp ∷ [] else [])) }
{
    if !completes_to(d, object, qp) {
        return Ok(());
    }
    match queues.push(SendQueue::new(qp, send_place(d, map, qp))) {
        Ok(()) => Ok(()),
        Err(_) => Err(NoMemory),
    }
}

/// Whether the send queue of a queue pair completes to the completion queue `object`.
fn completes_to(d: &Declared, object: u32, qp: u32) -> bool
    requires { IsTrue (is_among FIRST_QP (length d.now.qps) qp) }
    ensures { result ≡ words.completes_to d.now object qp }
{
    d.lines().qps.as_slice()[(qp - FIRST_QP) as usize].send_cq == object
}
