//! The text of a scatter/gather entry: its key, its address and its length.
ghost use Rattle.std.specs.Prelude.{◌≡◌};
ghost use Rattle.scenario_text.specs.Segments as segments;
ghost use Rattle.scenario_text.specs.Text.{split};

use crate::lines::{is_digits, is_name, is_number, read_hex_pair, read_key, read_number};
use crate::parts::{Parts, SPACE, has_parts, part};
use crate::values::saturated;
use verbs_types::Sge;

/// What stands between the parts of an entry.
const COLON: u8 = b':';

/// What stands between the name of a key and the variant.
const TILDE: u8 = b'~';

/// The key of the entry that ends a list of entries in words (`MLX5_INVALID_LKEY` of the rdma-core mlx5
/// provider).
const LIST_END_KEY: u32 = 0x100;

/// The fields of a receive's line in which its entries stand: all after its id.
pub fn fields(line: &[u8]) -> Parts
    ensures { result ≡ record { separator = 32; left = segments.segment_fields (split 32 line.now) } }
{
    let mut fields = Parts::of(line, SPACE);
    fields.next_part();
    fields.next_part();
    fields
}

/// Whether the field has the form of an entry, and is not one that ends a list.
pub fn is_formed(field: &[u8]) -> bool
    ensures { result ≡ segments.is_formed field.now }
{
    has_parts(field, COLON, 3)
        && read_key(part(field, COLON, 0)).is_some()
        && is_digits(part(field, COLON, 1))
        && is_digits(part(field, COLON, 2))
        && !(has_numbers(field) && is_list_end(read(field)))
}

/// Whether the entry ends a list of entries in words.
fn is_list_end(entry: Sge) -> bool
    ensures { result ≡ segments.is_list_end entry }
{
    entry.key == LIST_END_KEY && entry.addr == 0 && entry.len == 0
}

/// Whether the digits of an entry are numbers.
pub fn has_numbers(field: &[u8]) -> bool
    ensures { result ≡ segments.has_numbers field.now }
{
    is_number(part(field, COLON, 1)) && is_number(part(field, COLON, 2))
}

/// Whether an entry names its key, which is not built yet.
pub fn is_later(field: &[u8]) -> bool
    ensures { result ≡ segments.is_later field.now }
{
    has_parts(field, COLON, 3) && names_key(part(field, COLON, 0))
}

/// Whether a key is the name of one, or it with another variant.
fn names_key(key: &[u8]) -> bool
    ensures { result ≡ segments.names_key key.now }
{
    is_name(part(key, TILDE, 0))
        && (has_parts(key, TILDE, 1) || has_parts(key, TILDE, 2) && is_variant(part(key, TILDE, 1)))
}

/// Whether a field is two hexadecimal digits.
fn is_variant(field: &[u8]) -> bool
    ensures { result ≡ segments.is_variant field.now }
{
    field.len() == 2 && read_hex_pair(field[0], field[1]).is_some()
}

/// The length of an entry.
pub fn length(field: &[u8]) -> u64
    ensures { result ≡ segments.length_in field.now }
{
    read_number(part(field, COLON, 2)).unwrap_or(0)
}

/// The entry that a field spells. A length of 2^32 or more passes its limit and is kept as 2^32 - 1.
pub fn read(field: &[u8]) -> Sge
    ensures { result ≡ segments.segment_in field.now }
{
    Sge {
        key: read_key(part(field, COLON, 0)).unwrap_or(0),
        addr: read_number(part(field, COLON, 1)).unwrap_or(0),
        len: saturated(length(field)),
    }
}
