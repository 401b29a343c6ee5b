//! The first two words of a send entry, which are its control segment, before the entry is judged.

ghost use Rattle.std.specs.Prelude.{◌≡◌, ◌/◌, ◌%◌, ◌^◌, ◌==◌};
ghost use Rattle.prm_fields.specs.Bits.{field_value};
ghost use Rattle.work_entries.specs.Control.{flags_at, units_at};
ghost use Rattle.work_entries.specs.Front.{OfFirst, OfSecond};
ghost use Rattle.work_entries.specs.Front as places;

use crate::control::WANTED;
use crate::units::unit_at;
use prm_fields::{ctrl_rows, field_of};

/// How many units of 16 bytes an entry with this first word has: the low 6 bits of the field, as the
/// Programmer's Reference Manual has it.
#[inline]
pub fn units_in(first: u64) -> u64
    ensures units { result ≡ places.units_in first }
    ensures field { OfFirst first (λ control. units_at control % 2 ^ 6 ≡ result) }
{
    ctrl_rows!(field_of[Ds]).get(&unit_at(&[first, 0], 0)) % 64
}

/// The number of the opcode of an entry with this first word.
#[inline]
pub fn opcode_in(first: u64) -> u8
    ensures opcode { result ≡ places.opcode_in first }
    ensures field { OfFirst first (λ control. field_value control 24 8 ≡ result) }
{
    ctrl_rows!(field_of[Opcode]).get(&unit_at(&[first, 0], 0)) as u8
}

/// Whether the flags of an entry with this second word ask for a completion.
#[inline]
pub fn is_wanted(second: u64) -> bool
    ensures wanted { result ≡ places.is_wanted second }
    ensures field { OfSecond second (λ control. (flags_at control / 8 % 2 == 1) ≡ result) }
{
    let flags = ctrl_rows!(field_of[Flags]).get(&unit_at(&[0, second], 0));
    flags / WANTED as u64 % 2 == 1
}
