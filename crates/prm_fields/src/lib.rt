//! The layouts of the mlx5 programming interface, from the Programmer's Reference Manual: which
//! fields each has, at which bits they stand, and what is reserved in this project's profile.
//!
//! - [`Field`] reads and writes one field of a byte string; [`word`] and [`put_word`] a 64-bit word.
//! - [`layout_rows`] and [`row`] give the rows of a layout, [`reserved_clear`] tests its reserved bits.
//! - `cqe_rows!` and its kin hand the same rows to a macro; `cqe_rows!(field_of[Qpn])` is the [`Field`]
//!   of a row, so that an encoder or a decoder has each place as constants, by its name in the table.
//! - [`laws`] says that a byte string with clear reserved bits is the only spelling of its fields.
#![tactic(auto)]

mod bits;
pub mod laws;
mod layout;
mod places;
mod rows;
mod table;

pub use bits::{Field, put_word, word};
pub use layout::{FieldName, FieldRow, LayoutName};
pub use table::{layout_length, layout_rows, reserved_clear, row};
