//! Inline segments: bytes that stand in the entry itself.

ghost use Rattle.std.specs.Prelude.{◌≡◌, ◌+◌, ◌*◌, ◌<◌, ◌≤◌, ◌==◌, IfOk, true, length, take, drop};
ghost use Rattle.std.specs.List.{list_all};
ghost use Rattle.prm_fields.specs.Spelling.{Spells};
ghost use Rattle.prm_fields.specs.declared.layout.LayoutName.TheVariants.{Inline as InlineLayout};
ghost use Rattle.work_entries.specs.Filled.{filled};
ghost use Rattle.work_entries.specs.Body.{begins_inline, inline_values};
ghost use Rattle.prm_fields.specs.Refusal.{RefusesBy};
ghost use Rattle.work_entries.specs.Body.{HasInline};
ghost use Rattle.work_entries.specs.Body.{inline_units as units_for};
ghost use Rattle.work_entries.specs.Found.{IsInlineOf};
ghost use Rattle.work_entries.specs.Rules.{inline_rules};
ghost use Rattle.work_entries.specs.Rules.{has_inline_size as has_size};
ghost use Rattle.work_entries.specs.Unit.{KeepsOtherWords, unit, units};

use crate::fault::{BadEntry, EntryRule};
use crate::inline_bytes::InlineBytes;
use crate::units::{put_unit, unit_at};
use prm_fields::{field_of, inline_rows};

/// How many units an inline segment of `bytes` bytes takes: four bytes of head, and then the bytes.
pub(crate) fn inline_units(bytes: usize) -> usize
    requires { bytes ≤ 60 }
    ensures { result ≡ units_for bytes }
{
    (4 + bytes + 15) / 16
}

/// The head of an inline segment of `bytes` bytes.
fn inline_head(bytes: usize) -> [u8; 4]
    requires { bytes ≤ 60 }
    ensures { Spells InlineLayout (inline_values bytes) result }
{
    let mut head = [0; 4];
    inline_rows!(field_of[Inline]).put(&mut head, 1);
    inline_rows!(field_of[ByteCount]).put(&mut head, bytes as u64);
    head
}

/// An inline segment in 64 bytes: the head, the bytes, and then 0.
fn inline_segment(bytes: &[u8]) -> [u8; 64]
    requires { length bytes.now ≤ 60 }
    ensures head { Spells InlineLayout (inline_values (length bytes.now)) result }
    ensures rest { drop 4 result ≡ filled 60 0 bytes.now }
{
    let mut segment = [0; 64];
    segment[..4].copy_from_slice(&inline_head(bytes.len()));
    segment[4..4 + bytes.len()].copy_from_slice(bytes);
    segment
}

/// Writes the first `count` units of a segment from unit `first` on.
fn put_units(words: &mut [u64; 32], first: usize, count: usize, segment: &[u8; 64])
    requires most { count ≤ 4 }
    requires inside { first ≤ 12 }
    ensures stored { units words.new first count ≡ take (16 * count) segment.now }
    ensures others { KeepsOtherWords words.old words.new (2 * first) (2 * count) }
{
    for i in 0..count {
        let mut unit = [0; 16];
        unit.copy_from_slice(&segment[16 * i..16 * i + 16]);
        put_unit(words, first + i, &unit);
    }
}

/// Writes an inline segment from unit `first` on.
pub(crate) fn put_inline(words: &mut [u64; 32], first: usize, bytes: &[u8])
    requires most { length bytes.now ≤ 60 }
    requires inside { first ≤ 12 }
    ensures stored { HasInline bytes.now words.new first }
    ensures others { KeepsOtherWords words.old words.new (2 * first) (2 * units_for (length bytes.now)) }
{
    put_units(
        words,
        first,
        inline_units(bytes.len()),
        &inline_segment(bytes),
    );
}

/// Whether all bytes are 0.
fn is_zero(bytes: &[u8]) -> bool
    ensures { result ≡ list_all (λ b. b == 0) bytes.now }
{
    bytes.iter().all(|byte| *byte == 0)
}

/// The 64 bytes of four units from unit `first` on.
fn segment_at(words: &[u64; 32], first: usize) -> [u8; 64]
    requires { first ≤ 12 }
    ensures { result ≡ units words.now first 4 }
{
    let mut segment = [0; 64];
    for i in 0..4usize {
        segment[16 * i..16 * i + 16].copy_from_slice(&unit_at(words, first + i));
    }
    segment
}

/// Whether an inline segment of `bytes` bytes takes just `count` units.
fn has_inline_size(bytes: usize, count: usize) -> bool
    ensures { result ≡ has_size bytes count }
{
    bytes <= 60 && inline_units(bytes) == count
}

/// The bytes of an inline segment of `count` units from unit `first` on.
pub(crate) fn inline_at(
    words: &[u64; 32],
    first: usize,
    count: usize,
) -> Result<InlineBytes, BadEntry>
    requires inside { first ≤ 12 }
    requires some { 1 ≤ count }
    requires begins { begins_inline (unit words.now first) ≡ true }
    ensures found { IfOk result (λ bytes. IsInlineOf bytes words.now first count) }
    ensures refused { RefusesBy result (inline_rules words.now first count) }
{
    let bytes = inline_rows!(field_of[ByteCount]).get(&unit_at(words, first)) as usize;
    if !has_inline_size(bytes, count) {
        return Err(BadEntry {
            unit: first as u32,
            why: EntryRule::Size,
        });
    }
    let segment = segment_at(words, first);
    let (found, rest) = segment[4..16 * count].split_at(bytes);
    if !is_zero(rest) {
        return Err(BadEntry {
            unit: (first + count - 1) as u32,
            why: EntryRule::Reserved,
        });
    }
    Ok(InlineBytes::from_slice(found))
}
