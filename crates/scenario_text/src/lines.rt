//! Readers of lines, fields, names, numbers, hexadecimal digits and keys.
ghost use Rattle.std.specs.Prelude.{◌≡◌, ◌+◌, ◌≤◌, length};
ghost use Rattle.std.specs.List.{list_all};
ghost use Rattle.verbs_types.specs.Names as names;
ghost use Rattle.scenario_text.specs.Text as text;

pub use crate::parts::{LINE_END, Parts, SPACE, cut, has_parts, part};
use std::str;

/// Whether all bytes are of a text: 0x20 to 0x7e.
pub fn are_text_bytes(line: &[u8]) -> bool
    ensures { result ≡ list_all text.is_text_byte line.now }
{
    line.iter().all(|byte| is_text_byte(*byte))
}

fn is_text_byte(byte: u8) -> bool
    ensures { result ≡ text.is_text_byte byte }
{
    0x20 <= byte && byte <= 0x7e
}

/// Whether a line says nothing: it is empty or begins with `#`.
pub fn is_skipped(line: &[u8]) -> bool
    ensures { result ≡ text.is_skipped line.now }
{
    match line.first() {
        Some(byte) => *byte == b'#',
        None => true,
    }
}

/// Whether a field is a name: 1 to 16 of `a` to `z`, `0` to `9` and `_`, the first a letter.
pub fn is_name(field: &[u8]) -> bool
    ensures { result ≡ names.is_name field.now }
{
    match field.first() {
        Some(first) => first.is_ascii_lowercase() && field.len() <= 16 && has_name_bytes(field),
        None => false,
    }
}

fn has_name_bytes(field: &[u8]) -> bool
    ensures { result ≡ list_all names.is_name_byte field.now }
{
    field.iter().all(|byte| is_name_byte(*byte))
}

fn is_name_byte(byte: u8) -> bool
    ensures { result ≡ names.is_name_byte byte }
{
    byte.is_ascii_lowercase() || byte.is_ascii_digit() || byte == b'_'
}

/// Whether there are digits and nothing else.
pub fn is_digits(field: &[u8]) -> bool
    ensures { result ≡ text.is_digits field.now }
{
    !field.is_empty() && has_digits_only(field)
}

fn has_digits_only(field: &[u8]) -> bool
    ensures { result ≡ list_all text.is_digit field.now }
{
    field.iter().all(|byte| byte.is_ascii_digit())
}

/// The number that these digits spell: decimal, below 2^64, without leading zeros.
pub fn read_number(digits: &[u8]) -> Option<u64>
    ensures { result ≡ text.read_number digits.now }
{
    if !is_digits(digits) || has_leading_zero(digits) {
        return None;
    }
    match str::from_utf8(digits) {
        Ok(text) => text.parse().ok(),
        Err(_) => None,
    }
}

/// Whether a zero stands before other digits.
fn has_leading_zero(digits: &[u8]) -> bool
    ensures { result ≡ text.has_leading_zero digits.now }
{
    digits.len() > 1 && digits.starts_with(b"0")
}

/// Whether these digits spell a number.
pub fn is_number(digits: &[u8]) -> bool
    ensures { result ≡ text.is_number digits.now }
{
    read_number(digits).is_some()
}

/// The byte that two hexadecimal digits spell, of `0` to `9` and `a` to `f`.
pub fn read_hex_pair(high: u8, low: u8) -> Option<u8>
    ensures { result ≡ text.read_hex_pair high low }
{
    Some(hex_digit(high)? * 16 + hex_digit(low)?)
}

/// The value of a hexadecimal digit.
pub fn hex_digit(digit: u8) -> Option<u8>
    ensures { result ≡ text.hex_digit digit }
{
    match digit {
        b'0'..=b'9' => Some(digit - b'0'),
        b'a'..=b'f' => Some(digit - b'a' + 10),
        _ => None,
    }
}

/// The key that `#` and eight hexadecimal digits spell.
pub fn read_key(field: &[u8]) -> Option<u32>
    ensures { result ≡ text.read_key field.now }
{
    if field.len() != 9 || !field.starts_with(b"#") {
        return None;
    }
    let high = u32::from(read_half(field, 1)?);
    let low = u32::from(read_half(field, 5)?);
    Some(high * 65_536 + low)
}

/// The number that the four hexadecimal digits from this place on spell.
fn read_half(field: &[u8], place: usize) -> Option<u16>
    requires { place + 4 ≤ length field.now }
    ensures { result ≡ text.half_at field.now place }
{
    let high = u16::from(read_hex_pair(field[place], field[place + 1])?);
    let low = u16::from(read_hex_pair(field[place + 2], field[place + 3])?);
    Some(high * 256 + low)
}
