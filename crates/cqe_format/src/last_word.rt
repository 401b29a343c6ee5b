//! The last word of an entry, which tells who owns it.

ghost use Rattle.std.specs.Prelude.{◌≡◌};
ghost use Rattle.cqe_format.specs.LastWord.{IsFieldOfLast};
ghost use Rattle.cqe_format.specs.LastWord as places;

use crate::bytes::entry_bytes;
use prm_fields::{cqe_rows, field_of};

/// The owner bit of a completion or an event with this last word.
#[inline(always)]
pub fn owner_in(last: u64) -> u64
    ensures owner { result ≡ places.owner_in last }
    ensures field { IsFieldOfLast last 511 1 result }
{
    cqe_rows!(field_of[Owner]).get(&entry_bytes(&[0, 0, 0, 0, 0, 0, 0, last]))
}

/// The opcode of a completion with this last word.
#[inline(always)]
pub fn opcode_in(last: u64) -> u8
    ensures opcode { result ≡ places.opcode_in last }
    ensures field { IsFieldOfLast last 504 4 result }
{
    cqe_rows!(field_of[Opcode]).get(&entry_bytes(&[0, 0, 0, 0, 0, 0, 0, last])) as u8
}
