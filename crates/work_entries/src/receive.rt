//! Receive entries: the segments of a receive, as many as the queue's stride has room for.

ghost use Rattle.std.specs.Prelude.{◌≡◌, ◌≤◌, List, length};
ghost use Rattle.std.specs.List.{AllByRecursion};
ghost use Rattle.verbs_types.specs.declared.request.Sge.{Sge};
ghost use Rattle.work_entries.specs.Receive.{AreClearFrom, IsReal, IsReceive, used_units};
ghost use Rattle.work_entries.specs.Receive.{room_of as room_for};

use crate::segments::{put_segments, segment_in, segment_unit};
use crate::sge_array::SgeArray;
use crate::units::{put_unit, unit_at};
use verbs_types::{Sequence, Sge};

// The segment that ends a list of fewer segments than there are units. No region has this key, since
// no region has variant 0.
const END: Sge = Sge {
    key: 0x100,
    addr: 0,
    len: 0,
};

/// How many segments an entry of `stride` words has room for; more than 16 words count as 16.
fn room_of(stride: u32) -> usize
    ensures value { result ≡ room_for stride }
    ensures most { result ≤ 8 }
{
    (stride as usize / 2).min(8)
}

/// Writes the segments of a receive into the first `stride` words, and 0 into all others.
///
/// `stride` is that of the receive queue, or that of a shared receive queue less the two words of the
/// next segment. Where a unit is left, the one that ends the list follows: the invalid key 0x100 of
/// the rdma-core mlx5 provider, the length 0 and the address 0.
pub fn encode_recv(sges: &Sequence<Sge>, stride: u32, to: &mut [u64; 16])
    requires room { length sges.now ≤ room_for stride }
    requires real { AllByRecursion IsReal sges.now }
    ensures spelled { IsReceive sges.now (room_for stride) to.new }
    ensures clear { AreClearFrom (used_units (length sges.now) (room_for stride)) to.new }
{
    *to = [0; 16];
    put_segments(to, 0, sges.as_slice());
    if sges.len() < room_of(stride) {
        put_unit(to, sges.len(), &segment_unit(END));
    }
}

/// The segments in the first `room` units, up to the one that ends the list.
fn segments_in(w: &[u64; 16], room: usize) -> SgeArray
    requires { room ≤ 8 }
    ensures { IsReceive result room w.now }
{
    let mut sges = SgeArray::new();
    for k in 0..room {
        let sge = segment_in(&unit_at(w, k));
        if sge == END {
            return sges;
        }
        sges.push(sge);
    }
    sges
}

/// Reads the segments of a receive from the first `stride` words, of which no more than 16 are read.
///
/// Every entry spells a list; what stands behind the end of the list is not judged.
pub fn decode_recv(w: &[u64; 16], stride: u32, to: &mut SgeArray)
    ensures found { IsReceive to.new (room_for stride) w.now }
    ensures only { (sges : List Sge) → IsReceive sges (room_for stride) w.now → to.new ≡ sges }
{
    *to = segments_in(w, room_of(stride));
}
