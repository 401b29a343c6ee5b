//! Where a completion queue lies.
ghost use Rattle.std.specs.Prelude.{◌≡◌, ◌≤◌, ◌+◌, ◌^◌, IsTrue, length};
ghost use Rattle.owner_ring.specs.Place.{IsPlace};
ghost use Rattle.cq_pair.specs.Place.{ring_of};
ghost use Rattle.verbs_types.specs.Lines.{is_among};
ghost use Rattle.actor_map.specs.Map.{first_word, map_of};
ghost use Rattle.actor_map.specs.declared.kind.ObjectKind.TheVariants.{Cq};
ghost use Rattle.actor_map.specs.Limits.{IsCqSize};
ghost use Rattle.actor_map.specs.Sizes.{words_of, cq_words};
ghost use Rattle.object_places.specs.Places as words;

use crate::sizes::places;
use actor_map::{AddressMap, ObjectKind, laws};
use cq_pair::CqPlace;
use verbs_types::{CqLine, Declared};

/// The place of the completion queue `object`: its two areas, of which each has as many entries as the queue may
/// ever have, its doorbell record of two words, its arm register and its arm sequence number.
pub fn completion_place(d: &Declared, map: &AddressMap, object: u32) -> CqPlace
    requires object { IsTrue (is_among 0 (length d.now.cqs) object) }
    requires map { map.now ≡ map_of d.now }
    requires fits { words_of d.now ≤ 2 ^ 20 }
    ensures place { result ≡ words.completions_of d.now object }
    ensures fine { IsPlace (ring_of result) }
    ensures within { words.AreWithin (words_of d.now) result }
{
    completions_from(object, first_of(d, map, object), line_of(d, object))
}

/// The first word of a completion queue.
fn first_of(d: &Declared, map: &AddressMap, object: u32) -> u32
    requires object { IsTrue (is_among 0 (length d.now.cqs) object) }
    requires map { map.now ≡ map_of d.now }
    ensures first { result ≡ first_word (map_of d.now) Cq object }
    ensures fits { result + cq_words (words.cq_line d.now object) ≤ words_of d.now }
{
    // The completion queue's words lie within the map.
    laws::whole();
    laws::inside();
    map.first(ObjectKind::Cq, object)
}

/// The line of a completion queue.
fn line_of(d: &Declared, object: u32) -> &CqLine
    requires object { IsTrue (is_among 0 (length d.now.cqs) object) }
    ensures line { result.now ≡ words.cq_line d.now object }
    ensures size { IsCqSize result.now }
    ensures log { result.now.log ≤ result.now.ceiling }
{
    &d.lines().cqs.as_slice()[object as usize]
}

/// The place of the completion queue `object` whose words begin with `first`.
fn completions_from(object: u32, first: u32, line: &CqLine) -> CqPlace
    requires size { IsCqSize line.now }
    requires fits { first + cq_words line.now ≤ 2 ^ 20 }
    ensures { result ≡ words.completions_from object first line.now }
{
    let area = 8 * places(line.ceiling);
    let record = first + 2 * area;
    CqPlace {
        number: object,
        areas: [first, first + area],
        ceiling: line.ceiling,
        log: line.log,
        dbr: record,
        arm_reg: record + 2,
        sn: record + 3,
    }
}
