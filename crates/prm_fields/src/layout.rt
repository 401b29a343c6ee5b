//! The names of layouts and fields.

ghost use Rattle.std.specs.Prelude.{◌≡◌};

/// A layout of the Programmer's Reference Manual, in the profile of this project.
#[derive(Clone, Copy, Debug, PartialEq, Eq)]
pub enum LayoutName {
    /// A completion queue entry that reports success or a resize.
    Cqe,
    /// A completion queue entry that reports an error.
    CqeErr,
    /// An event queue entry for a completion.
    EqeCq,
    /// An event queue entry for a completion queue error.
    EqeError,
    /// The control segment of a work queue entry.
    Ctrl,
    /// The remote address segment of a work queue entry.
    Raddr,
    /// The atomic segment of a work queue entry.
    Atomic,
    /// A data segment of a work queue entry: one scatter/gather entry.
    DataUnit,
    /// The head of an inline segment of a work queue entry.
    Inline,
    /// The next segment of an entry of a shared receive queue.
    Next,
    /// A command queue entry.
    CmdEntry,
    /// The last 64 bytes of a mailbox block, from its byte 512 on.
    BlockTail,
    /// A completion queue context.
    CqContext,
    /// A memory key context.
    MkeyContext,
    /// The parameters of CREATE_EQ.
    EqBlock,
    /// The parameters of CREATE_SRQ.
    SrqBlock,
    /// The parameters of CREATE_QP.
    QpBlock,
}

impl LayoutName {
    ghost use Rattle.prm_fields.specs.Names.{layout_text};

    /// The layout's name as the command line and the documents write it.
    pub fn text(self) -> &'static str
        ensures { result.now ≡ layout_text self }
    {
        match self {
            LayoutName::Cqe => "cqe",
            LayoutName::CqeErr => "cqe_err",
            LayoutName::EqeCq => "eqe_cq",
            LayoutName::EqeError => "eqe_error",
            LayoutName::Ctrl => "ctrl",
            LayoutName::Raddr => "raddr",
            LayoutName::Atomic => "atomic",
            LayoutName::DataUnit => "data",
            LayoutName::Inline => "inline",
            LayoutName::Next => "next",
            LayoutName::CmdEntry => "cmd_entry",
            LayoutName::BlockTail => "block_tail",
            LayoutName::CqContext => "cq_context",
            LayoutName::MkeyContext => "mkey_context",
            LayoutName::EqBlock => "eq_block",
            LayoutName::SrqBlock => "srq_block",
            LayoutName::QpBlock => "qp_block",
        }
    }
}

/// The name of a row of a layout, as the Programmer's Reference Manual and the rdma-core mlx5
/// provider spell it.
#[derive(Clone, Copy, Debug, PartialEq, Eq)]
pub enum FieldName {
    /// Bits that are 0 in this profile, also where the manual has a field.
    Reserved,

    // first in `cqe`
    FlagsRqpn,
    SrqnUidx,
    ImmInvalPkey,
    ByteCnt,
    Timestamp,
    Sop,
    Qpn,
    WqeCounter,
    Signature,
    Opcode,
    Format,
    Solicited,
    Owner,

    // first in `cqe_err`
    VendorSyndrome,
    Syndrome,

    // first in `eqe_cq`
    TypeByte,
    SubType,
    Cqn,

    // first in `ctrl`
    Opmod,
    Index,
    Ds,
    Flags,
    Imm,

    // first in `raddr`
    Addr,
    Rkey,

    // first in `atomic`
    SwapOrAdd,
    Compare,

    // first in `data`
    ByteCount,
    Lkey,

    // first in `inline`
    Inline,

    // first in `next`
    NextWqeIndex,

    // first in `cmd_entry`
    InLen,
    InPtr,
    InputHi,
    InputLo,
    OutputHi,
    OutputLo,
    OutPtr,
    OutLen,
    Token,
    StatusOwn,

    // first in `block_tail`
    Next,
    Number,
    CtrlSignature,

    // first in `cq_context`
    CqeSz,
    LogCqSize,
    UarPage,
    CEqn,
    DbrAddr,

    // first in `mkey_context`
    A,
    Rw,
    Rr,
    Lw,
    Lr,
    Mkey7To0,
    Pd,
    StartAddr,
    Len,

    // first in `eq_block`
    Log,
    Uar,

    // first in `srq_block`
    Segments,

    // first in `qp_block`
    SendCq,
    RecvCq,
    SendLog,
    RecvLog,
    Srq,
}

impl FieldName {
    ghost use Rattle.prm_fields.specs.Names.{field_text};

    /// The field's name as the manual and the provider spell it.
    pub fn text(self) -> &'static str
        ensures { result.now ≡ field_text self }
    {
        match self {
            FieldName::Reserved => "reserved",
            FieldName::FlagsRqpn => "flags_rqpn",
            FieldName::SrqnUidx => "srqn_uidx",
            FieldName::ImmInvalPkey => "imm_inval_pkey",
            FieldName::ByteCnt => "byte_cnt",
            FieldName::Timestamp => "timestamp",
            FieldName::Sop => "sop",
            FieldName::Qpn => "qpn",
            FieldName::WqeCounter => "wqe_counter",
            FieldName::Signature => "signature",
            FieldName::Opcode => "opcode",
            FieldName::Format => "format",
            FieldName::Solicited => "solicited",
            FieldName::Owner => "owner",
            FieldName::VendorSyndrome => "vendor_syndrome",
            FieldName::Syndrome => "syndrome",
            FieldName::TypeByte => "type",
            FieldName::SubType => "sub_type",
            FieldName::Cqn => "cqn",
            FieldName::Opmod => "opmod",
            FieldName::Index => "index",
            FieldName::Ds => "ds",
            FieldName::Flags => "flags",
            FieldName::Imm => "imm",
            FieldName::Addr => "addr",
            FieldName::Rkey => "rkey",
            FieldName::SwapOrAdd => "swap_or_add",
            FieldName::Compare => "compare",
            FieldName::ByteCount => "byte_count",
            FieldName::Lkey => "lkey",
            FieldName::Inline => "inline",
            FieldName::NextWqeIndex => "next_wqe_index",
            FieldName::InLen => "in_len",
            FieldName::InPtr => "in_ptr",
            FieldName::InputHi => "input_hi",
            FieldName::InputLo => "input_lo",
            FieldName::OutputHi => "output_hi",
            FieldName::OutputLo => "output_lo",
            FieldName::OutPtr => "out_ptr",
            FieldName::OutLen => "out_len",
            FieldName::Token => "token",
            FieldName::StatusOwn => "status_own",
            FieldName::Next => "next",
            FieldName::Number => "number",
            FieldName::CtrlSignature => "ctrl_signature",
            FieldName::CqeSz => "cqe_sz",
            FieldName::LogCqSize => "log_cq_size",
            FieldName::UarPage => "uar_page",
            FieldName::CEqn => "c_eqn",
            FieldName::DbrAddr => "dbr_addr",
            FieldName::A => "a",
            FieldName::Rw => "rw",
            FieldName::Rr => "rr",
            FieldName::Lw => "lw",
            FieldName::Lr => "lr",
            FieldName::Mkey7To0 => "mkey_7_0",
            FieldName::Pd => "pd",
            FieldName::StartAddr => "start_addr",
            FieldName::Len => "len",
            FieldName::Log => "log",
            FieldName::Uar => "uar",
            FieldName::Segments => "segments",
            FieldName::SendCq => "send_cq",
            FieldName::RecvCq => "recv_cq",
            FieldName::SendLog => "send_log",
            FieldName::RecvLog => "recv_log",
            FieldName::Srq => "srq",
        }
    }
}

/// A row of a layout.
#[derive(Clone, Copy, Debug, PartialEq, Eq)]
pub struct FieldRow {
    pub name: FieldName,
    /// The row's first bit, bit 0 being the top bit of byte 0.
    pub bit: u32,
    /// How many bits the row has.
    pub width: u32,
}
