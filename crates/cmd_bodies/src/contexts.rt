//! Contexts and parameter blocks: what CREATE commands carry from byte 16 of their input on.
//!
//! Their bit places are this project's own profile.

ghost use Rattle.std.specs.Prelude.{◌≡◌, ◌^◌, ◌<◌, IsTrue, length};
ghost use Rattle.prm_fields.specs.Layout.{is_reserved_clear};
ghost use Rattle.cmd_bodies.specs.Contexts.{FitsCq, FitsMkey, cq_at, eq_at, mkey_at, qp_at, srq_at};
ghost use Rattle.prm_fields.specs.declared.layout.LayoutName.{LayoutName};
ghost use Rattle.prm_fields.specs.declared.layout.LayoutName.TheVariants.{CqContext as CqLayout, EqBlock as EqLayout, MkeyContext as MkeyLayout, QpBlock as QpLayout, SrqBlock as SrqLayout};

use prm_fields::{
    cq_context_rows, eq_block_rows, field_of, mkey_context_rows, qp_block_rows, srq_block_rows,
};

/// A memory key's rights and range.
#[derive(Clone, Copy, Debug, PartialEq, Eq)]
pub struct MkeyContext {
    /// Atomic operations by the peer.
    pub a: bool,
    /// Writes by the peer.
    pub rw: bool,
    /// Reads by the peer.
    pub rr: bool,
    /// Writes by this side.
    pub lw: bool,
    /// Reads by this side.
    pub lr: bool,
    /// The key's variant, its low 8 bits.
    pub mkey_7_0: u8,
    /// The protection domain, below 2^24.
    pub pd: u32,
    /// The region's first byte address.
    pub start_addr: u64,
    /// The region's length in bytes.
    pub len: u64,
}

/// A completion queue.
#[derive(Clone, Copy, Debug, PartialEq, Eq)]
pub struct CqContext {
    /// The code of the entry size, below 8: 0 is 64 bytes.
    pub cqe_sz: u8,
    /// The log2 of the number of entries, below 32.
    pub log_cq_size: u8,
    /// The page of its arm register, below 2^24.
    pub uar_page: u32,
    /// The event queue that its events go to.
    pub c_eqn: u8,
    /// The byte address of its doorbell record.
    pub dbr_addr: u64,
}

/// An event queue.
#[derive(Clone, Copy, Debug, PartialEq, Eq)]
pub struct EqBlock {
    /// The log2 of the number of entries.
    pub log: u32,
    /// The page of its register.
    pub uar: u32,
    /// The byte address of its first entry.
    pub addr: u64,
}

/// A shared receive queue.
#[derive(Clone, Copy, Debug, PartialEq, Eq)]
pub struct SrqBlock {
    /// The log2 of the number of entries.
    pub log: u32,
    /// How many segments a receive may have.
    pub segments: u32,
    /// The protection domain.
    pub pd: u32,
    /// The byte address of its first entry.
    pub addr: u64,
}

/// A queue pair.
#[derive(Clone, Copy, Debug, PartialEq, Eq)]
pub struct QpBlock {
    /// The protection domain.
    pub pd: u32,
    /// The completion queue of its send queue.
    pub send_cq: u32,
    /// The completion queue of its receive queue.
    pub recv_cq: u32,
    /// The log2 of the number of send blocks.
    pub send_log: u32,
    /// The log2 of the number of receive entries.
    pub recv_log: u32,
    /// How many segments a receive may have.
    pub segments: u32,
    /// One more than the number of its shared receive queue, or 0.
    pub srq: u32,
    /// The page of its send register.
    pub uar: u32,
    /// The byte address of its send queue.
    pub addr: u64,
}

/// The bytes of a memory key context.
pub(crate) fn encode_mkey(m: MkeyContext) -> [u8; 64]
    requires { FitsMkey m }
    ensures reads { mkey_at result ≡ m }
    ensures clear { IsTrue (is_reserved_clear MkeyLayout result) }
    ensures long { length result ≡ 64 }
{
    let mut bytes = [0; 64];
    mkey_context_rows!(field_of[A]).put(&mut bytes, m.a as u64);
    mkey_context_rows!(field_of[Rw]).put(&mut bytes, m.rw as u64);
    mkey_context_rows!(field_of[Rr]).put(&mut bytes, m.rr as u64);
    mkey_context_rows!(field_of[Lw]).put(&mut bytes, m.lw as u64);
    mkey_context_rows!(field_of[Lr]).put(&mut bytes, m.lr as u64);
    mkey_context_rows!(field_of[Mkey7To0]).put(&mut bytes, m.mkey_7_0 as u64);
    mkey_context_rows!(field_of[Pd]).put(&mut bytes, m.pd as u64);
    mkey_context_rows!(field_of[StartAddr]).put(&mut bytes, m.start_addr);
    mkey_context_rows!(field_of[Len]).put(&mut bytes, m.len);
    bytes
}

/// The memory key context that the bytes hold.
pub(crate) fn decode_mkey(bytes: &[u8; 64]) -> MkeyContext
    ensures { result ≡ mkey_at bytes.now }
{
    MkeyContext {
        a: mkey_context_rows!(field_of[A]).get(bytes) == 1,
        rw: mkey_context_rows!(field_of[Rw]).get(bytes) == 1,
        rr: mkey_context_rows!(field_of[Rr]).get(bytes) == 1,
        lw: mkey_context_rows!(field_of[Lw]).get(bytes) == 1,
        lr: mkey_context_rows!(field_of[Lr]).get(bytes) == 1,
        mkey_7_0: mkey_context_rows!(field_of[Mkey7To0]).get(bytes) as u8,
        pd: mkey_context_rows!(field_of[Pd]).get(bytes) as u32,
        start_addr: mkey_context_rows!(field_of[StartAddr]).get(bytes),
        len: mkey_context_rows!(field_of[Len]).get(bytes),
    }
}

/// The bytes of a completion queue context.
pub(crate) fn encode_cq(c: CqContext) -> [u8; 64]
    requires { FitsCq c }
    ensures reads { cq_at result ≡ c }
    ensures clear { IsTrue (is_reserved_clear CqLayout result) }
    ensures long { length result ≡ 64 }
{
    let mut bytes = [0; 64];
    cq_context_rows!(field_of[CqeSz]).put(&mut bytes, c.cqe_sz as u64);
    cq_context_rows!(field_of[LogCqSize]).put(&mut bytes, c.log_cq_size as u64);
    cq_context_rows!(field_of[UarPage]).put(&mut bytes, c.uar_page as u64);
    cq_context_rows!(field_of[CEqn]).put(&mut bytes, c.c_eqn as u64);
    cq_context_rows!(field_of[DbrAddr]).put(&mut bytes, c.dbr_addr);
    bytes
}

/// The completion queue context that the bytes hold.
pub(crate) fn decode_cq(bytes: &[u8; 64]) -> CqContext
    ensures { result ≡ cq_at bytes.now }
{
    CqContext {
        cqe_sz: cq_context_rows!(field_of[CqeSz]).get(bytes) as u8,
        log_cq_size: cq_context_rows!(field_of[LogCqSize]).get(bytes) as u8,
        uar_page: cq_context_rows!(field_of[UarPage]).get(bytes) as u32,
        c_eqn: cq_context_rows!(field_of[CEqn]).get(bytes) as u8,
        dbr_addr: cq_context_rows!(field_of[DbrAddr]).get(bytes),
    }
}

/// The bytes of the parameters of an event queue.
pub(crate) fn encode_eq(e: EqBlock) -> [u8; 32]
    ensures reads { eq_at result ≡ e }
    ensures clear { IsTrue (is_reserved_clear EqLayout result) }
    ensures long { length result ≡ 32 }
{
    let mut bytes = [0; 32];
    eq_block_rows!(field_of[Log]).put(&mut bytes, e.log as u64);
    eq_block_rows!(field_of[Uar]).put(&mut bytes, e.uar as u64);
    eq_block_rows!(field_of[Addr]).put(&mut bytes, e.addr);
    bytes
}

/// The parameters of an event queue that the bytes hold.
pub(crate) fn decode_eq(bytes: &[u8; 32]) -> EqBlock
    ensures { result ≡ eq_at bytes.now }
{
    EqBlock {
        log: eq_block_rows!(field_of[Log]).get(bytes) as u32,
        uar: eq_block_rows!(field_of[Uar]).get(bytes) as u32,
        addr: eq_block_rows!(field_of[Addr]).get(bytes),
    }
}

/// The bytes of the parameters of a shared receive queue.
pub(crate) fn encode_srq(s: SrqBlock) -> [u8; 32]
    ensures reads { srq_at result ≡ s }
    ensures clear { IsTrue (is_reserved_clear SrqLayout result) }
    ensures long { length result ≡ 32 }
{
    let mut bytes = [0; 32];
    srq_block_rows!(field_of[Log]).put(&mut bytes, s.log as u64);
    srq_block_rows!(field_of[Segments]).put(&mut bytes, s.segments as u64);
    srq_block_rows!(field_of[Pd]).put(&mut bytes, s.pd as u64);
    srq_block_rows!(field_of[Addr]).put(&mut bytes, s.addr);
    bytes
}

/// The parameters of a shared receive queue that the bytes hold.
pub(crate) fn decode_srq(bytes: &[u8; 32]) -> SrqBlock
    ensures { result ≡ srq_at bytes.now }
{
    SrqBlock {
        log: srq_block_rows!(field_of[Log]).get(bytes) as u32,
        segments: srq_block_rows!(field_of[Segments]).get(bytes) as u32,
        pd: srq_block_rows!(field_of[Pd]).get(bytes) as u32,
        addr: srq_block_rows!(field_of[Addr]).get(bytes),
    }
}

/// The bytes of the parameters of a queue pair.
pub(crate) fn encode_qp(q: QpBlock) -> [u8; 64]
    ensures reads { qp_at result ≡ q }
    ensures clear { IsTrue (is_reserved_clear QpLayout result) }
    ensures long { length result ≡ 64 }
{
    let mut bytes = [0; 64];
    qp_block_rows!(field_of[Pd]).put(&mut bytes, q.pd as u64);
    qp_block_rows!(field_of[SendCq]).put(&mut bytes, q.send_cq as u64);
    qp_block_rows!(field_of[RecvCq]).put(&mut bytes, q.recv_cq as u64);
    qp_block_rows!(field_of[SendLog]).put(&mut bytes, q.send_log as u64);
    qp_block_rows!(field_of[RecvLog]).put(&mut bytes, q.recv_log as u64);
    qp_block_rows!(field_of[Segments]).put(&mut bytes, q.segments as u64);
    qp_block_rows!(field_of[Srq]).put(&mut bytes, q.srq as u64);
    qp_block_rows!(field_of[Uar]).put(&mut bytes, q.uar as u64);
    qp_block_rows!(field_of[Addr]).put(&mut bytes, q.addr);
    bytes
}

/// The parameters of a queue pair that the bytes hold.
pub(crate) fn decode_qp(bytes: &[u8; 64]) -> QpBlock
    ensures { result ≡ qp_at bytes.now }
{
    QpBlock {
        pd: qp_block_rows!(field_of[Pd]).get(bytes) as u32,
        send_cq: qp_block_rows!(field_of[SendCq]).get(bytes) as u32,
        recv_cq: qp_block_rows!(field_of[RecvCq]).get(bytes) as u32,
        send_log: qp_block_rows!(field_of[SendLog]).get(bytes) as u32,
        recv_log: qp_block_rows!(field_of[RecvLog]).get(bytes) as u32,
        segments: qp_block_rows!(field_of[Segments]).get(bytes) as u32,
        srq: qp_block_rows!(field_of[Srq]).get(bytes) as u32,
        uar: qp_block_rows!(field_of[Uar]).get(bytes) as u32,
        addr: qp_block_rows!(field_of[Addr]).get(bytes),
    }
}
