//! Event queue entries of completion queues.

ghost use Rattle.std.specs.Prelude.{◌≡◌, ◌%◌, IfOk, IfErr, IfSome, slice_index};
ghost use Rattle.prm_fields.specs.Spelling.{Spells};
ghost use Rattle.prm_fields.specs.declared.layout.LayoutName.TheVariants.{EqeCq, EqeError};
ghost use Rattle.cqe_format.specs.Bytes.{IsFirstWrong};
ghost use Rattle.cqe_format.specs.Bytes.{entry_bytes as bytes_of_words};
ghost use Rattle.cqe_format.specs.Event.{IsEqe, IsSomeEqe, eqe_field};
ghost use Rattle.verbs_types.specs.declared.completion.EventRecord.{EventRecord};

use crate::bytes::{entry_bytes, entry_words};
use crate::search::{NotAnEntry, wrong_event_byte};
use prm_fields::{LayoutName, eqe_cq_rows, eqe_error_rows, field_of, reserved_clear};
use verbs_types::EventRecord;

// The type of an event of a completion (Programmer's Reference Manual).
pub(crate) const COMPLETION: u8 = 0;

// The type of an event of an error.
pub(crate) const CQ_ERROR: u8 = 4;

/// The bytes of a completion's event, with a clear owner bit.
#[inline(always)]
fn completion_bytes(cq: u32) -> [u8; 64]
    ensures { Spells EqeCq (eqe_field (EventRecord.Completion cq) 0) result }
{
    let mut bytes = [0; 64];
    eqe_cq_rows!(field_of[TypeByte]).put(&mut bytes, COMPLETION as u64);
    eqe_cq_rows!(field_of[Cqn]).put(&mut bytes, cq as u64);
    bytes
}

/// The bytes of an error's event, with a clear owner bit.
#[inline(always)]
fn error_bytes(cq: u32) -> [u8; 64]
    ensures { Spells EqeError (eqe_field (EventRecord.CqError cq) 0) result }
{
    let mut bytes = [0; 64];
    eqe_error_rows!(field_of[TypeByte]).put(&mut bytes, CQ_ERROR as u64);
    eqe_error_rows!(field_of[Cqn]).put(&mut bytes, cq as u64);
    bytes
}

/// The words of an event, with a clear owner bit.
pub fn encode_eqe(e: &EventRecord) -> [u64; 8]
    ensures spelled { IsEqe e.now (bytes_of_words result) }
    ensures owner { slice_index result 7 % 2 ≡ 0 }
{
    match *e {
        EventRecord::Completion { cq } => entry_words(&completion_bytes(cq)),
        EventRecord::CqError { cq } => entry_words(&error_bytes(cq)),
    }
}

/// The event that the bytes spell, if they spell one.
#[inline(always)]
fn event_of(bytes: &[u8; 64]) -> Option<EventRecord>
    ensures found { IfSome result (λ e. IsEqe e bytes.now) }
    ensures only { (e : EventRecord) → IsEqe e bytes.now → result ≡ Some e }
{
    match eqe_cq_rows!(field_of[TypeByte]).get(bytes) as u8 {
        COMPLETION => {
            let clear = reserved_clear(LayoutName::EqeCq, bytes)
                && eqe_cq_rows!(field_of[SubType]).get(bytes) == 0
                && eqe_cq_rows!(field_of[Signature]).get(bytes) == 0;
            clear.then_some(EventRecord::Completion {
                cq: eqe_cq_rows!(field_of[Cqn]).get(bytes) as u32,
            })
        }
        CQ_ERROR => {
            let clear = reserved_clear(LayoutName::EqeError, bytes)
                && eqe_error_rows!(field_of[SubType]).get(bytes) == 0
                && eqe_error_rows!(field_of[Signature]).get(bytes) == 0;
            clear.then_some(EventRecord::CqError {
                cq: eqe_error_rows!(field_of[Cqn]).get(bytes) as u32,
            })
        }
        _ => None,
    }
}

/// The event that the words spell, with either owner bit.
pub fn decode_eqe(w: &[u64; 8]) -> Result<EventRecord, NotAnEntry>
    ensures found { IfOk result (λ e. IsEqe e (bytes_of_words w.now)) }
    ensures only { (e : EventRecord) → IsEqe e (bytes_of_words w.now) → result ≡ Ok e }
    ensures refused { IfErr result (λ e. IsFirstWrong IsSomeEqe (bytes_of_words w.now) e.byte) }
{
    let bytes = entry_bytes(w);
    match event_of(&bytes) {
        Some(e) => Ok(e),
        None => Err(NotAnEntry {
            byte: wrong_event_byte(&bytes),
        }),
    }
}
