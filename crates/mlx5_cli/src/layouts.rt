//! The text of a layout.
ghost use Rattle.std.specs.Prelude.{◌≡◌, ◌++◌, IfOk, OnOk, decimal};
ghost use Rattle.mlx5_cli.specs.Layouts.{layout_lines as lines, row_line};

use itoa::Buffer;
use prm_fields::{FieldRow, LayoutName, layout_rows};
use std::alloc::{AllocError, Global};

/// One line `FIELD BIT WIDTH` for each row of a layout, in order. Reserved rows have the name
/// `reserved`; bit 0 is the top bit of byte 0.
pub fn layout_lines(alloc: Global, layout: LayoutName) -> Result<Vec<u8>, AllocError>
    ensures { IfOk result (λ text. text.items ≡ lines layout) }
{
    let mut text = Vec::new(alloc);
    for row in layout_rows(layout) {
        put_row(&mut text, row)?;
    }
    Ok(text)
}

/// Adds the line of a row.
fn put_row(text: &mut Vec<u8>, row: &FieldRow) -> Result<(), AllocError>
    ensures { OnOk result (text.new.items ≡ text.old.items ++ row_line row.now) }
{
    text.extend_from_slice(row.name.text().as_bytes())?;
    text.extend_from_slice(b" ")?;
    put_number(text, row.bit)?;
    text.extend_from_slice(b" ")?;
    put_number(text, row.width)?;
    text.extend_from_slice(b"\n")
}

/// Adds a number in decimal digits.
fn put_number(text: &mut Vec<u8>, number: u32) -> Result<(), AllocError>
    ensures { OnOk result (text.new.items ≡ text.old.items ++ decimal number) }
{
    text.extend_from_slice(Buffer::new().format(number).as_bytes())
}
