//! Completion queue entries.

ghost use Rattle.std.specs.Prelude.{◌≡◌, ℕ, ◌<◌, ◌+◌, ◌/◌, ◌%◌, ◌^◌, ◌==◌, ◌||◌, true, false, ◌↔◌, IsTrue, IfOk, IfErr, IfSome, slice_index};
ghost use Rattle.prm_fields.specs.Bits.{field_value};
ghost use Rattle.prm_fields.specs.Spelling.{Spells};
ghost use Rattle.prm_fields.specs.declared.layout.LayoutName.TheVariants.{Cqe as CqeLayout, CqeErr};
ghost use Rattle.cqe_format.specs.Bytes.{IsFirstWrong};
ghost use Rattle.cqe_format.specs.Bytes.{entry_bytes as bytes_of_words};
ghost use Rattle.cqe_format.specs.Opcode.{is_error as is_error_opcode};
ghost use Rattle.cqe_format.specs.Completion.{IsCompletion, IsCqe, IsSomeCqe, cqe_field};
ghost use Rattle.cqe_format.specs.declared.completion.Cqe.{Cqe};

use crate::bytes::{entry_bytes, entry_words};
use crate::opcode::{
    REQUEST, RESIZE, has_imm, has_len, has_srqn, is_error, is_known, is_receive, is_send_opcode,
};
use crate::search::{NotAnEntry, wrong_completion_byte};
use crate::syndrome::Syndrome;
use prm_fields::{LayoutName, cqe_err_rows, cqe_rows, field_of, reserved_clear};

/// A completion queue entry, but for its owner bit.
#[derive(Clone, Copy, Debug, PartialEq, Eq)]
pub struct Cqe {
    /// What it reports: one of `opcode`.
    pub opcode: u8,
    /// The opcode of the request that succeeded; else 0.
    pub sop: u8,
    /// The number of the queue pair, 24 bits.
    pub qpn: u32,
    /// The number of the shared receive queue that the receive came from; else 0.
    pub srqn: u32,
    /// The immediate of the message; else 0.
    pub imm: u32,
    /// The length of the message in bytes, 0 in an error.
    pub len: u32,
    /// For a request the index of its first block, for a receive of a queue pair its count, both
    /// modulo 2^16; for one of a shared receive queue its slot.
    pub counter: u16,
    /// The number of a `Syndrome` in an error; else 0.
    pub syndrome: u8,
    /// Whether a solicited arm is passed: in a receive of a solicited message, and in each error.
    pub solicited: bool,
    /// Where bytes of the message lie in the entry: 0, nowhere.
    pub format: u8,
}

impl Cqe {
    /// Whether a completion may be so: its opcode is known, and what that has none of is 0.
    #[inline(always)]
    pub fn is_completion(&self) -> bool
        ensures { IsTrue result ↔ IsCompletion self.now }
    {
        let error = is_error(self.opcode);
        is_known(self.opcode)
            & (self.format == 0)
            & is_send_opcode(self.sop)
            & is_only_where(self.opcode == REQUEST, self.sop as u32)
            & (self.qpn < 1 << 24)
            & is_only_where(self.opcode != RESIZE, self.qpn)
            & is_only_where(self.opcode != RESIZE, self.counter as u32)
            & is_only_where(has_srqn(self.opcode), self.srqn)
            & is_only_where(has_imm(self.opcode), self.imm)
            & is_only_where(has_len(self.opcode), self.len)
            & is_only_where(error, self.syndrome as u32)
            & (Syndrome::from_number(self.syndrome).is_some() == error)
            & (is_receive(self.opcode) | (self.solicited == error))
    }
}

/// Whether a number is 0 where there is none.
#[inline(always)]
fn is_only_where(has: bool, number: u32) -> bool
    ensures { result ≡ (has || (number == 0)) }
{
    has | (number == 0)
}

/// The bytes of an entry that reports no error, with a clear owner bit.
#[inline(always)]
fn success_bytes(c: &Cqe) -> [u8; 64]
    requires { IsCompletion c.now }
    ensures { Spells CqeLayout (cqe_field c.now 0) result }
{
    let mut bytes = [0; 64];
    cqe_rows!(field_of[SrqnUidx]).put(&mut bytes, c.srqn as u64);
    cqe_rows!(field_of[ImmInvalPkey]).put(&mut bytes, c.imm as u64);
    cqe_rows!(field_of[ByteCnt]).put(&mut bytes, c.len as u64);
    cqe_rows!(field_of[Sop]).put(&mut bytes, c.sop as u64);
    cqe_rows!(field_of[Qpn]).put(&mut bytes, c.qpn as u64);
    cqe_rows!(field_of[WqeCounter]).put(&mut bytes, c.counter as u64);
    cqe_rows!(field_of[Opcode]).put(&mut bytes, c.opcode as u64);
    cqe_rows!(field_of[Solicited]).put(&mut bytes, c.solicited as u64);
    bytes
}

/// The bytes of an entry that reports an error, with a clear owner bit.
#[inline(always)]
fn error_bytes(c: &Cqe) -> [u8; 64]
    requires completion { IsCompletion c.now }
    requires error { IsTrue (is_error_opcode c.now.opcode) }
    ensures { Spells CqeErr (cqe_field c.now 0) result }
{
    let mut bytes = [0; 64];
    cqe_err_rows!(field_of[SrqnUidx]).put(&mut bytes, c.srqn as u64);
    cqe_err_rows!(field_of[Syndrome]).put(&mut bytes, c.syndrome as u64);
    cqe_err_rows!(field_of[Qpn]).put(&mut bytes, c.qpn as u64);
    cqe_err_rows!(field_of[WqeCounter]).put(&mut bytes, c.counter as u64);
    cqe_err_rows!(field_of[Opcode]).put(&mut bytes, c.opcode as u64);
    cqe_err_rows!(field_of[Solicited]).put(&mut bytes, c.solicited as u64);
    bytes
}

/// The words of a completion, with a clear owner bit. [`Cqe::is_completion`] tests what it needs.
pub fn encode_cqe(c: &Cqe) -> [u64; 8]
    requires { IsCompletion c.now }
    ensures spelled { IsCqe c.now (bytes_of_words result) }
    ensures owner { slice_index result 7 % 2 ≡ 0 }
    ensures opcode { slice_index result 7 / 16 % 16 ≡ c.now.opcode }
{
    if is_error(c.opcode) {
        entry_words(&error_bytes(c))
    } else {
        entry_words(&success_bytes(c))
    }
}

/// What bytes spell in the fields of an entry that reports no error. None where another field is not 0.
#[inline(always)]
fn success_of(bytes: &[u8; 64]) -> Option<Cqe>
    ensures found { IfSome result (λ c. Spells CqeLayout (cqe_field c (field_value bytes.now 511 1)) bytes.now) }
    ensures syndrome { IfSome result (λ c. c.syndrome ≡ 0) }
    ensures only { (c : Cqe) → c.syndrome ≡ 0
        → Spells CqeLayout (cqe_field c (field_value bytes.now 511 1)) bytes.now → result ≡ Some c }
{
    if !reserved_clear(LayoutName::Cqe, bytes)
        || cqe_rows!(field_of[FlagsRqpn]).get(bytes) != 0
        || cqe_rows!(field_of[Timestamp]).get(bytes) != 0
        || cqe_rows!(field_of[Signature]).get(bytes) != 0
    {
        return None;
    }
    Some(Cqe {
        opcode: cqe_rows!(field_of[Opcode]).get(bytes) as u8,
        sop: cqe_rows!(field_of[Sop]).get(bytes) as u8,
        qpn: cqe_rows!(field_of[Qpn]).get(bytes) as u32,
        srqn: cqe_rows!(field_of[SrqnUidx]).get(bytes) as u32,
        imm: cqe_rows!(field_of[ImmInvalPkey]).get(bytes) as u32,
        len: cqe_rows!(field_of[ByteCnt]).get(bytes) as u32,
        counter: cqe_rows!(field_of[WqeCounter]).get(bytes) as u16,
        syndrome: 0,
        solicited: cqe_rows!(field_of[Solicited]).get(bytes) == 1,
        format: cqe_rows!(field_of[Format]).get(bytes) as u8,
    })
}

/// What bytes spell in the fields of an entry that reports an error. None where another field is not 0.
#[inline(always)]
fn error_of(bytes: &[u8; 64]) -> Option<Cqe>
    ensures found { IfSome result (λ c. Spells CqeErr (cqe_field c (field_value bytes.now 511 1)) bytes.now) }
    ensures imm { IfSome result (λ c. c.imm ≡ 0) }
    ensures len { IfSome result (λ c. c.len ≡ 0) }
    ensures only { (c : Cqe) → c.imm ≡ 0 → c.len ≡ 0
        → Spells CqeErr (cqe_field c (field_value bytes.now 511 1)) bytes.now → result ≡ Some c }
{
    if !reserved_clear(LayoutName::CqeErr, bytes)
        || cqe_err_rows!(field_of[VendorSyndrome]).get(bytes) != 0
        || cqe_err_rows!(field_of[Signature]).get(bytes) != 0
    {
        return None;
    }
    Some(Cqe {
        opcode: cqe_err_rows!(field_of[Opcode]).get(bytes) as u8,
        sop: cqe_err_rows!(field_of[Sop]).get(bytes) as u8,
        qpn: cqe_err_rows!(field_of[Qpn]).get(bytes) as u32,
        srqn: cqe_err_rows!(field_of[SrqnUidx]).get(bytes) as u32,
        imm: 0,
        len: 0,
        counter: cqe_err_rows!(field_of[WqeCounter]).get(bytes) as u16,
        syndrome: cqe_err_rows!(field_of[Syndrome]).get(bytes) as u8,
        solicited: cqe_err_rows!(field_of[Solicited]).get(bytes) == 1,
        format: cqe_err_rows!(field_of[Format]).get(bytes) as u8,
    })
}

/// The completion that the bytes spell, if they spell one.
#[inline(always)]
fn completion_of(bytes: &[u8; 64]) -> Option<Cqe>
    ensures found { IfSome result (λ c. IsCqe c bytes.now) }
    ensures only { (c : Cqe) → IsCqe c bytes.now → result ≡ Some c }
{
    let opcode = cqe_rows!(field_of[Opcode]).get(bytes) as u8;
    let found = if is_error(opcode) {
        error_of(bytes)
    } else {
        success_of(bytes)
    };
    found.filter(|c| c.is_completion())
}

/// The completion that the words spell, with either owner bit.
pub fn decode_cqe(w: &[u64; 8]) -> Result<Cqe, NotAnEntry>
    ensures found { IfOk result (λ c. IsCqe c (bytes_of_words w.now)) }
    ensures only { (c : Cqe) → IsCqe c (bytes_of_words w.now) → result ≡ Ok c }
    ensures refused { IfErr result (λ e. IsFirstWrong IsSomeCqe (bytes_of_words w.now) e.byte) }
{
    let bytes = entry_bytes(w);
    match completion_of(&bytes) {
        Some(c) => Ok(c),
        None => Err(NotAnEntry {
            byte: wrong_completion_byte(&bytes),
        }),
    }
}
