//! The table of layouts.

ghost use Rattle.std.specs.Prelude.{◌≡◌, length, slice_get};
ghost use Rattle.prm_fields.specs.Layout.{rows, is_reserved_clear};
ghost use Rattle.prm_fields.specs.Layout.{layout_length as length_of};

use crate::bits::is_clear;
use crate::layout::{FieldName, FieldRow, LayoutName};
use crate::{
    atomic_rows, block_tail_rows, cmd_entry_rows, cq_context_rows, cqe_err_rows, cqe_rows,
    ctrl_rows, data_rows, eq_block_rows, eqe_cq_rows, eqe_error_rows, inline_rows,
    mkey_context_rows, next_rows, qp_block_rows, raddr_rows, srq_block_rows,
};

macro_rules! list_rows {
    ([] $(($name:ident $bit:literal $width:literal))*) => {
        [$(FieldRow { name: FieldName::$name, bit: $bit, width: $width }),*]
    };
}

macro_rules! clear_rows {
    ([$bytes:ident]) => { true };
    ([$bytes:ident] (Reserved $bit:literal $width:literal) $($rest:tt)*) => {
        is_clear($bytes, $bit, $width) & clear_rows!([$bytes] $($rest)*)
    };
    ([$bytes:ident] $row:tt $($rest:tt)*) => { clear_rows!([$bytes] $($rest)*) };
}

static CQE: [FieldRow; 16] = cqe_rows!(list_rows []);

static CQE_ERR: [FieldRow; 13] = cqe_err_rows!(list_rows []);

static EQE_CQ: [FieldRow; 10] = eqe_cq_rows!(list_rows []);

static EQE_ERROR: [FieldRow; 10] = eqe_error_rows!(list_rows []);

static CTRL: [FieldRow; 9] = ctrl_rows!(list_rows []);

static RADDR: [FieldRow; 3] = raddr_rows!(list_rows []);

static ATOMIC: [FieldRow; 2] = atomic_rows!(list_rows []);

static DATA: [FieldRow; 3] = data_rows!(list_rows []);

static INLINE: [FieldRow; 2] = inline_rows!(list_rows []);

static NEXT: [FieldRow; 3] = next_rows!(list_rows []);

static CMD_ENTRY: [FieldRow; 14] = cmd_entry_rows!(list_rows []);

static BLOCK_TAIL: [FieldRow; 7] = block_tail_rows!(list_rows []);

static CQ_CONTEXT: [FieldRow; 9] = cq_context_rows!(list_rows []);

static MKEY_CONTEXT: [FieldRow; 13] = mkey_context_rows!(list_rows []);

static EQ_BLOCK: [FieldRow; 4] = eq_block_rows!(list_rows []);

static SRQ_BLOCK: [FieldRow; 6] = srq_block_rows!(list_rows []);

static QP_BLOCK: [FieldRow; 10] = qp_block_rows!(list_rows []);

/// How many bytes a layout has.
pub fn layout_length(layout: LayoutName) -> usize
    ensures { result ≡ length_of layout }
{
    match layout {
        LayoutName::Inline => 4,
        LayoutName::Ctrl
        | LayoutName::Raddr
        | LayoutName::Atomic
        | LayoutName::DataUnit
        | LayoutName::Next => 16,
        LayoutName::EqBlock | LayoutName::SrqBlock => 32,
        _ => 64,
    }
}

/// The rows of a layout in order, without gaps.
pub fn layout_rows(layout: LayoutName) -> &'static [FieldRow]
    ensures { result.now ≡ rows layout }
{
    match layout {
        LayoutName::Cqe => &CQE,
        LayoutName::CqeErr => &CQE_ERR,
        LayoutName::EqeCq => &EQE_CQ,
        LayoutName::EqeError => &EQE_ERROR,
        LayoutName::Ctrl => &CTRL,
        LayoutName::Raddr => &RADDR,
        LayoutName::Atomic => &ATOMIC,
        LayoutName::DataUnit => &DATA,
        LayoutName::Inline => &INLINE,
        LayoutName::Next => &NEXT,
        LayoutName::CmdEntry => &CMD_ENTRY,
        LayoutName::BlockTail => &BLOCK_TAIL,
        LayoutName::CqContext => &CQ_CONTEXT,
        LayoutName::MkeyContext => &MKEY_CONTEXT,
        LayoutName::EqBlock => &EQ_BLOCK,
        LayoutName::SrqBlock => &SRQ_BLOCK,
        LayoutName::QpBlock => &QP_BLOCK,
    }
}

/// Row `k` of a layout, from 0. None exactly where the layout has no such row.
pub fn row(layout: LayoutName, k: u32) -> Option<FieldRow>
    ensures { result ≡ slice_get (rows layout) k }
{
    layout_rows(layout).get(k as usize).copied()
}

/// Whether all reserved bits of a layout are 0.
#[inline(always)]
pub fn reserved_clear(layout: LayoutName, bytes: &[u8]) -> bool
    requires { length bytes.now ≡ length_of layout }
    ensures { result ≡ is_reserved_clear layout bytes.now }
{
    match layout {
        LayoutName::Cqe => cqe_rows!(clear_rows[bytes]),
        LayoutName::CqeErr => cqe_err_rows!(clear_rows[bytes]),
        LayoutName::EqeCq => eqe_cq_rows!(clear_rows[bytes]),
        LayoutName::EqeError => eqe_error_rows!(clear_rows[bytes]),
        LayoutName::Ctrl => ctrl_rows!(clear_rows[bytes]),
        LayoutName::Raddr => raddr_rows!(clear_rows[bytes]),
        LayoutName::Atomic => atomic_rows!(clear_rows[bytes]),
        LayoutName::DataUnit => data_rows!(clear_rows[bytes]),
        LayoutName::Inline => inline_rows!(clear_rows[bytes]),
        LayoutName::Next => next_rows!(clear_rows[bytes]),
        LayoutName::CmdEntry => cmd_entry_rows!(clear_rows[bytes]),
        LayoutName::BlockTail => block_tail_rows!(clear_rows[bytes]),
        LayoutName::CqContext => cq_context_rows!(clear_rows[bytes]),
        LayoutName::MkeyContext => mkey_context_rows!(clear_rows[bytes]),
        LayoutName::EqBlock => eq_block_rows!(clear_rows[bytes]),
        LayoutName::SrqBlock => srq_block_rows!(clear_rows[bytes]),
        LayoutName::QpBlock => qp_block_rows!(clear_rows[bytes]),
    }
}
