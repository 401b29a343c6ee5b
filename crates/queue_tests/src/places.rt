//! Where the objects of the sample lie.
ghost use Rattle.std.specs.Prelude.{◌≡◌, ◌≤◌, ◌^◌};
ghost use Rattle.actor_map.specs.Map.{map_of};
ghost use Rattle.actor_map.specs.Sizes.{words_of};
ghost use Rattle.sample_objects.specs.Pair.{lines_of, pair_of};

use crate::completions::QUEUE;
use actor_map::{AddressMap, notes, words as count_words};
use counted_ring::WqPlace;
use cq_pair::CqPlace;
use object_places::{completion_place, receive_place, send_place};
use sample_objects::{one_pair, with_pair, words};
use std::alloc::Global;
use std::test::Fail;
use verbs_types::{Call, Declared, FIRST_QP, Sequence};

/// A ring of 16 blocks, with their ids and head words.
const SEND: WqPlace = WqPlace {
    ring: words::SEND_RING,
    blocks: 16,
    stride: 8,
    ids: words::SEND_IDS,
    heads: words::SEND_HEADS,
    tail: words::SEND_TAIL,
    dbr: words::SEND_RECORD,
    reg: Some(words::REGISTER),
    max_post: 4,
};

/// A receive of 2 words with its id.
const RECEIVE: WqPlace = WqPlace {
    ring: words::RECEIVE_RING,
    blocks: 1,
    stride: 2,
    ids: words::RECEIVE_IDS,
    heads: 0,
    tail: words::RECEIVE_TAIL,
    dbr: words::RECEIVE_RECORD,
    reg: None,
    max_post: 1,
};

/// The places of all queues.
fn queues(d: &Declared, map: &AddressMap) -> (CqPlace, WqPlace, WqPlace)
    requires lines { d.now ≡ lines_of (pair_of 2 0 1) }
    requires map { map.now ≡ map_of d.now }
    requires fits { words_of d.now ≤ 2 ^ 20 }
{
    (
        completion_place(d, map, 0),
        send_place(d, map, FIRST_QP),
        receive_place(d, map, FIRST_QP),
    )
}

#[test]
fn queues_lie_one_after_another(rt: HostRuntime) -> Result<(), Fail> {
    let declared = one_pair(rt.alloc())?;
    let map = AddressMap::build(rt.alloc(), &declared)?;
    assert_eq!(rt; queues(&declared, &map), (QUEUE, SEND, RECEIVE));
    Ok(())
}

/// Of a receive of so many scatter/gather entries, by how many words 8 of them and their ids raise the count.
#[test]
fn strides_of_receives_are_powers_of_two(rt: HostRuntime) -> Result<(), Fail> {
    let sizes = [(1, 3), (2, 5), (3, 9), (4, 9), (5, 17), (8, 17)];
    for (segments, receive) in sizes {
        let declared = with_pair(rt.alloc(), 2, 3, segments)?;
        let others = words::COUNT as u64 - 3;
        assert_eq!(rt; count_words(&declared), others + 8 * receive);
    }
    Ok(())
}

fn program(alloc: Global) -> Result<Sequence<Call>, Fail> {
    let mut calls = Vec::new(alloc);
    calls.push(Call::Poll { cq: 0, max: 3 })?;
    calls.push(Call::Drain { cq: 0, count: 5 })?;
    Ok(Sequence::from_vec(calls))
}

/// Four objects, a connection, opening and closing; a poll of 3 and a drain of 5.
#[test]
fn weights_add_up(rt: HostRuntime) -> Result<(), Fail> {
    let declared = one_pair(rt.alloc())?;
    let mut programs = Vec::new(rt.alloc());
    programs.push(program(rt.alloc())?)?;
    assert_eq!(rt;
        notes(&declared, programs.as_slice()),
        32 + 24 + 64 + 1024 + (8 + 12) + (8 + 30)
    );
    Ok(())
}
