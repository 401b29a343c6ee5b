//! The answer to a line.
ghost use Rattle.std.specs.Prelude.{ℕ, List, IfSome, IfNone, OnOk};
ghost use Rattle.mlx5_dump.specs.Line.{AddsAnswer, IsDump};
ghost use Rattle.mlx5_dump.specs.declared.kind.Kind.{Kind};

use crate::answer::put_answer;
use crate::hex::bytes_of;
use crate::kind::{Kind, MOST_BYTES, kind_and_digits};
use arrayvec::ArrayVec;
use std::alloc::AllocError;

/// The dump that a line is.
fn dump_of(line: &[u8]) -> Option<(Kind, ArrayVec<u8, MOST_BYTES>)>
    ensures found { IfSome result (λ found. IsDump found.0 found.1.items line.now) }
    ensures none { IfNone result ((kind : Kind) (bytes : List ℕ) → ¬ IsDump kind bytes line.now) }
{
    let (kind, digits) = kind_and_digits(line)?;
    let bytes = bytes_of(digits)?;
    if !kind.has_length(bytes.len()) {
        return None;
    }
    Some((kind, bytes))
}

/// Adds the answer to a line, which is given without its line end.
pub fn put_line_answer(text: &mut Vec<u8>, line: &[u8]) -> Result<(), AllocError>
    ensures { OnOk result (AddsAnswer line.now text.old.items text.new.items) }
{
    match dump_of(line) {
        Some((kind, bytes)) => put_answer(text, kind, bytes.as_slice()),
        None => text.extend_from_slice(b"malformed"),
    }
}
