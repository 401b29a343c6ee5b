//! Where the send and the receive queue of a queue pair lie.
ghost use Rattle.std.specs.Prelude.{◌≡◌, ◌≤◌, ◌+◌, ◌^◌, IsTrue, length};
ghost use Rattle.counted_ring.specs.Place.{IsPlace};
ghost use Rattle.verbs_types.specs.Lines.{is_among};
ghost use Rattle.verbs_types.specs.declared.declaration.TheConstants.{FIRST_QP};
ghost use Rattle.actor_map.specs.Map.{first_word, map_of};
ghost use Rattle.actor_map.specs.declared.kind.ObjectKind.TheVariants.{Qp};
ghost use Rattle.actor_map.specs.Limits.{IsQpSize};
ghost use Rattle.actor_map.specs.Sizes.{words_of, qp_words};
ghost use Rattle.object_places.specs.Places as words;

use crate::sizes::{places, stride};
use actor_map::{AddressMap, ObjectKind, laws};
use counted_ring::WqPlace;
use verbs_types::{Declared, FIRST_QP, QpLine};

/// The place of the send queue of the queue pair `object`: four blocks of 8 words for each request that
/// may be posted, an id and a head word a block, and the tail. Behind the receive queue stand the record,
/// of which word 1 is the send queue's, and the register.
pub fn send_place(d: &Declared, map: &AddressMap, object: u32) -> WqPlace
    requires object { IsTrue (is_among FIRST_QP (length d.now.qps) object) }
    requires map { map.now ≡ map_of d.now }
    requires fits { words_of d.now ≤ 2 ^ 20 }
    ensures place { result ≡ words.send_of d.now object }
    ensures fine { IsPlace result }
    ensures within { words.IsWithin (words_of d.now) result }
{
    sends_from(first_of(d, map, object), line_of(d, object))
}

/// The place of the receive queue of the queue pair `object`, which lies behind its send queue: a block for
/// each receive that may be posted, an id a block, and the tail. Word 0 of the pair's record is the receive
/// queue's. It has no head words and no register.
pub fn receive_place(d: &Declared, map: &AddressMap, object: u32) -> WqPlace
    requires object { IsTrue (is_among FIRST_QP (length d.now.qps) object) }
    requires map { map.now ≡ map_of d.now }
    requires fits { words_of d.now ≤ 2 ^ 20 }
    ensures place { result ≡ words.receive_of d.now object }
    ensures fine { IsPlace result }
    ensures within { words.IsWithin (words_of d.now) result }
{
    receives_from(first_of(d, map, object), line_of(d, object))
}

/// The first word of a queue pair.
fn first_of(d: &Declared, map: &AddressMap, object: u32) -> u32
    requires object { IsTrue (is_among FIRST_QP (length d.now.qps) object) }
    requires map { map.now ≡ map_of d.now }
    ensures first { result ≡ first_word (map_of d.now) Qp object }
    ensures fits { result + qp_words (words.qp_line d.now object) ≤ words_of d.now }
{
    // The queue pair's words lie within the map.
    laws::whole();
    laws::inside();
    map.first(ObjectKind::Qp, object)
}

/// The line of a queue pair.
fn line_of(d: &Declared, object: u32) -> &QpLine
    requires object { IsTrue (is_among FIRST_QP (length d.now.qps) object) }
    ensures line { result.now ≡ words.qp_line d.now object }
    ensures size { IsQpSize result.now }
{
    &d.lines().qps.as_slice()[(object - FIRST_QP) as usize]
}

/// The place of the send queue of a queue pair whose words begin with `first`.
fn sends_from(first: u32, line: &QpLine) -> WqPlace
    requires size { IsQpSize line.now }
    requires fits { first + qp_words line.now ≤ 2 ^ 20 }
    ensures { result ≡ words.place_from first line.now }
{
    let most = places(line.send_log);
    let tail = first + 40 * most;
    let receives = (stride(line.segments) + 1) * places(line.recv_log);
    let record = tail + 1 + receives + 1;
    WqPlace {
        ring: first,
        blocks: 4 * most,
        stride: 8,
        ids: first + 32 * most,
        heads: first + 36 * most,
        tail,
        dbr: record + 1,
        reg: Some(record + 2),
        max_post: most,
    }
}

/// The place of the receive queue of a queue pair whose words begin with `first`.
fn receives_from(first: u32, line: &QpLine) -> WqPlace
    requires size { IsQpSize line.now }
    requires fits { first + qp_words line.now ≤ 2 ^ 20 }
    ensures { result ≡ words.receives_from first line.now }
{
    let ring = first + 40 * places(line.send_log) + 1;
    let most = places(line.recv_log);
    let stride = stride(line.segments);
    let ids = ring + stride * most;
    let tail = ids + most;
    WqPlace {
        ring,
        blocks: most,
        stride,
        ids,
        heads: 0,
        tail,
        dbr: tail + 1,
        reg: None,
        max_post: most,
    }
}
