//! Where bytes stop to be the beginning of an entry.

ghost use Rattle.std.specs.Prelude.{◌≡◌, ◌+◌, ◌≤◌, IfSome, IfNone};
ghost use Rattle.cqe_format.specs.Bytes.{IsFirstWrong};
ghost use Rattle.cqe_format.specs.Completion.{IsSomeCqe};
ghost use Rattle.cqe_format.specs.Event.{IsSomeEqe};
ghost use Rattle.cqe_format.specs.Search.{IsClear, IsFirstSet, IsSetAround, fits_sop, fits_syndrome};

use crate::event::{COMPLETION, CQ_ERROR};
use crate::opcode::is_send_opcode;
use crate::syndrome::Syndrome;
use prm_fields::{byte_of, cqe_err_rows, cqe_rows, eqe_cq_rows, eqe_error_rows, field_of};
use thiserror::Error;

/// The words are no entry: `byte` is the first byte, 0 to 63, that no entry with the same bytes
/// before it has.
#[derive(Clone, Copy, Debug, PartialEq, Eq, Error)]
#[error("no entry: byte {byte} is wrong")]
pub struct NotAnEntry {
    pub byte: u32,
}

/// The first of the bytes `first` to `end - 1` that is not 0.
fn first_set(bytes: &[u8; 64], first: usize, end: usize) -> Option<u32>
    requires ordered { first ≤ end }
    requires inside { end ≤ 64 }
    ensures some { IfSome result (IsFirstSet bytes.now first end) }
    ensures none { IfNone result (IsClear bytes.now first end) }
{
    for i in first..end {
        if bytes[i] != 0 {
            return Some(i as u32);
        }
    }
    None
}

/// Whether a completion may have what stands at a syndrome's place, after the bytes before it.
#[inline(always)]
fn has_fit_syndrome(bytes: &[u8; 64]) -> bool
    ensures { result ≡ fits_syndrome bytes.now }
{
    let syndrome = cqe_err_rows!(field_of[Syndrome]).get(bytes) as u8;
    (syndrome == 0)
        | ((cqe_rows!(field_of[ImmInvalPkey]).get(bytes) == 0)
            & (cqe_rows!(field_of[ByteCnt]).get(bytes) == 0)
            & Syndrome::from_number(syndrome).is_some())
}

/// Whether a completion may have what stands at a send opcode's place, after the bytes before it.
#[inline(always)]
fn has_fit_sop(bytes: &[u8; 64]) -> bool
    ensures { result ≡ fits_sop bytes.now }
{
    let sop = cqe_rows!(field_of[Sop]).get(bytes) as u8;
    (sop == 0)
        | ((cqe_rows!(field_of[SrqnUidx]).get(bytes) == 0)
            & (cqe_rows!(field_of[ImmInvalPkey]).get(bytes) == 0)
            & (cqe_err_rows!(field_of[Syndrome]).get(bytes) == 0)
            & is_send_opcode(sop))
}

/// The first byte that no completion with the same bytes before it has, where the bytes spell none.
pub(crate) fn wrong_completion_byte(bytes: &[u8; 64]) -> u32
    requires { ¬ IsSomeCqe bytes.now }
    ensures { IsFirstWrong IsSomeCqe bytes.now result }
{
    if let Some(byte) = first_set(bytes, 0, cqe_rows!(byte_of[SrqnUidx])) {
        return byte;
    }
    let after_imm = cqe_rows!(byte_of[ImmInvalPkey]) + 4;
    if let Some(byte) = first_set(bytes, after_imm, cqe_rows!(byte_of[ByteCnt])) {
        return byte;
    }
    let syndrome = cqe_err_rows!(byte_of[Syndrome]);
    if let Some(byte) = first_set(bytes, cqe_rows!(byte_of[Timestamp]), syndrome) {
        return byte;
    }
    if !has_fit_syndrome(bytes) {
        return syndrome as u32;
    }
    if !has_fit_sop(bytes) {
        return cqe_rows!(byte_of[Sop]);
    }
    if cqe_rows!(field_of[Signature]).get(bytes) != 0 {
        return cqe_rows!(byte_of[Signature]);
    }
    cqe_rows!(byte_of[Opcode])
}

/// The first byte behind the type that is not 0, outside the four of the number from `cqn` on. Else
/// the last byte.
#[inline(always)]
fn set_around(bytes: &[u8; 64], cqn: usize) -> u32
    requires from { 2 ≤ cqn }
    requires inside { cqn + 4 ≤ 63 }
    ensures { IsSetAround bytes.now cqn result }
{
    if let Some(byte) = first_set(bytes, eqe_cq_rows!(byte_of[TypeByte]) + 1, cqn) {
        return byte;
    }
    if let Some(byte) = first_set(bytes, cqn + 4, eqe_cq_rows!(byte_of[Owner])) {
        return byte;
    }
    eqe_cq_rows!(byte_of[Owner])
}

/// The first byte that no event with the same bytes before it has, where the bytes spell none.
pub(crate) fn wrong_event_byte(bytes: &[u8; 64]) -> u32
    requires { ¬ IsSomeEqe bytes.now }
    ensures { IsFirstWrong IsSomeEqe bytes.now result }
{
    if bytes[0] != 0 {
        return 0;
    }
    let event_type = eqe_cq_rows!(field_of[TypeByte]).get(bytes) as u8;
    if event_type == COMPLETION {
        set_around(bytes, eqe_cq_rows!(byte_of[Cqn]))
    } else if event_type == CQ_ERROR {
        set_around(bytes, eqe_error_rows!(byte_of[Cqn]))
    } else {
        eqe_cq_rows!(byte_of[TypeByte])
    }
}
