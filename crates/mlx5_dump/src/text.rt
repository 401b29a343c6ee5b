//! Adding to a text.
ghost use Rattle.std.specs.Prelude.{◌≡◌, ◌≤◌, ◌++◌, ◌<◌, ◌^◌, OnOk, decimal};
ghost use Rattle.prm_fields.specs.Bits.{bit_of, field_value};
ghost use Rattle.prm_fields.specs.Layout.{is_reserved};
ghost use Rattle.mlx5_dump.specs.Answer.{field_words, fields_text};

use itoa::Buffer;
use prm_fields::{FieldName, FieldRow, LayoutName, layout_rows};
use std::alloc::AllocError;

/// Adds a number in decimal digits.
pub fn put_number(text: &mut Vec<u8>, number: u64) -> Result<(), AllocError>
    ensures { OnOk result (text.new.items ≡ text.old.items ++ decimal number) }
{
    text.extend_from_slice(Buffer::new().format(number).as_bytes())
}

/// Adds a space, a name, an equals sign and a number in decimal digits.
pub fn put_field(text: &mut Vec<u8>, name: &str, number: u64) -> Result<(), AllocError>
    ensures { OnOk result (text.new.items ≡ text.old.items ++ field_words name.now number) }
{
    text.extend_from_slice(b" ")?;
    text.extend_from_slice(name.as_bytes())?;
    text.extend_from_slice(b"=")?;
    put_number(text, number)
}

/// Adds each row of a layout that is not reserved, with its value in the bytes.
pub fn put_fields(text: &mut Vec<u8>, layout: LayoutName, bytes: &[u8]) -> Result<(), AllocError>
    ensures { OnOk result (text.new.items ≡ text.old.items ++ fields_text layout bytes.now) }
{
    for row in layout_rows(layout) {
        if !is_reserved(row) {
            put_field(
                text,
                row.name.text(),
                number_at(bytes, row.bit as usize, row.width),
            )?;
        }
    }
    Ok(())
}

fn is_reserved(row: &FieldRow) -> bool
    ensures { result ≡ is_reserved row.now }
{
    matches!(row.name, FieldName::Reserved)
}

/// The number that `width` bits from `first` on spell.
pub fn number_at(bytes: &[u8], first: usize, width: u32) -> u64
    requires narrow { width ≤ 64 }
    requires addressable { first < 2 ^ 63 }
    ensures { result ≡ field_value bytes.now first width }
{
    let mut number = 0;
    for k in 0..width {
        number = 2 * number + bit_at(bytes, first + k as usize) as u64;
    }
    number
}

/// A bit of a byte string, or 0 past its end.
fn bit_at(bytes: &[u8], k: usize) -> u8
    ensures value { result ≡ bit_of bytes.now k }
    ensures small { result < 2 }
{
    let byte = bytes.get(k / 8).copied().unwrap_or(0);
    (byte >> (7 - k % 8)) % 2
}
