//! Data segments: one scatter/gather entry a unit.

ghost use Rattle.std.specs.Prelude.{◌≡◌, ◌+◌, ◌-◌, ◌*◌, ◌<◌, ◌≤◌, IfOk, length};
ghost use Rattle.prm_fields.specs.Refusal.{RefusesBy};
ghost use Rattle.prm_fields.specs.Spelling.{Spells};
ghost use Rattle.prm_fields.specs.declared.layout.LayoutName.TheVariants.{DataUnit};
ghost use Rattle.work_entries.specs.Body.{HasSegments, segment_values};
ghost use Rattle.work_entries.specs.Body.{begins_inline as is_inline_head};
ghost use Rattle.work_entries.specs.Found.{AreSegments};
ghost use Rattle.work_entries.specs.Rules.{segment_rules};
ghost use Rattle.work_entries.specs.Unit.{KeepsOtherWords};

use crate::fault::{BadEntry, EntryRule};
use crate::sge_array::SgeArray;
use crate::units::{put_unit, unit_at};
use prm_fields::{data_rows, field_of, inline_rows};
use verbs_types::Sge;

/// A segment as bytes.
pub(crate) fn segment_unit(sge: Sge) -> [u8; 16]
    ensures { Spells DataUnit (segment_values sge) result }
{
    let mut unit = [0; 16];
    data_rows!(field_of[ByteCount]).put(&mut unit, sge.len as u64);
    data_rows!(field_of[Lkey]).put(&mut unit, sge.key as u64);
    data_rows!(field_of[Addr]).put(&mut unit, sge.addr);
    unit
}

/// The segment that a unit spells.
pub(crate) fn segment_in(unit: &[u8; 16]) -> Sge
    ensures { Spells DataUnit (segment_values result) unit.now }
{
    Sge {
        key: data_rows!(field_of[Lkey]).get(unit) as u32,
        addr: data_rows!(field_of[Addr]).get(unit),
        len: data_rows!(field_of[ByteCount]).get(unit) as u32,
    }
}

/// Whether a unit begins an inline segment.
pub(crate) fn begins_inline(unit: &[u8; 16]) -> bool
    ensures { result ≡ is_inline_head unit.now }
{
    inline_rows!(field_of[Inline]).get(unit) == 1
}

/// Writes segments from unit `first` on.
pub(crate) fn put_segments(words: &mut [u64], first: usize, sges: &[Sge])
    requires short { length words.old ≤ 32 }
    requires inside { 2 * (first + length sges.now) ≤ length words.old }
    ensures stored { HasSegments sges.now words.new first }
    ensures others { KeepsOtherWords words.old words.new (2 * first) (2 * length sges.now) }
{
    for (i, sge) in sges.iter().enumerate() {
        put_unit(words, first + i, &segment_unit(*sge));
    }
}

/// The segments of the units from `first` up to `end`, none of which may begin an inline segment.
pub(crate) fn segments_at(words: &[u64; 32], first: usize, end: usize) -> Result<SgeArray, BadEntry>
    requires order { first ≤ end }
    requires most { end ≤ first + 8 }
    requires inside { end ≤ 16 }
    ensures found { IfOk result (λ sges. AreSegments sges words.now first (end - first)) }
    ensures refused { RefusesBy result (segment_rules words.now first (end - first)) }
{
    let mut sges = SgeArray::new();
    for k in first..end {
        let unit = unit_at(words, k);
        if begins_inline(&unit) {
            return Err(BadEntry {
                unit: k as u32,
                why: EntryRule::Size,
            });
        }
        sges.push(segment_in(&unit));
    }
    Ok(sges)
}
