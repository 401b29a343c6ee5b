//! Commands.

ghost use Rattle.std.specs.Prelude.{◌≡◌};
ghost use Rattle.cmd_bodies.specs.Command.{kind_of, number_of, output_length_of, second_of};

use crate::contexts::{CqContext, EqBlock, MkeyContext, QpBlock, SrqBlock};
use crate::kind::Kind;

/// Which pages QUERY_PAGES asks for.
#[derive(Clone, Copy, Debug, PartialEq, Eq)]
pub enum PageUse {
    /// Those that the adapter needs before INIT_HCA.
    Boot,
    /// Those that it needs for INIT_HCA.
    Init,
}

/// Addresses of pages.
#[derive(Clone, Copy, Debug, PartialEq, Eq)]
pub struct PageList {
    /// How many addresses there are, at most 88.
    pub count: u32,
    /// The addresses; those from `count` on are 0.
    pub pages: [u64; 88],
}

/// A command of the Programmer's Reference Manual with what its input carries.
///
/// That an object number stands at byte 8, a second one at byte 12 and a parameter block from byte 16
/// on is this project's own.
#[derive(Clone, Copy, Debug, PartialEq, Eq)]
pub enum Command {
    /// ENABLE_HCA: takes the adapter out of its reset.
    EnableHca,
    /// DISABLE_HCA: puts it back there.
    DisableHca,
    /// INIT_HCA: starts the adapter once it has its pages.
    InitHca,
    /// TEARDOWN_HCA: stops it; it keeps its pages.
    TeardownHca,
    /// QUERY_PAGES: asks how many pages the adapter needs.
    QueryPages(PageUse),
    /// MANAGE_PAGES that gives pages to the adapter.
    GivePages(PageList),
    /// MANAGE_PAGES that asks the adapter to return pages, at most 88.
    ReturnPages {
        count: u32,
    },
    /// ALLOC_PD: makes a protection domain.
    AllocPd,
    /// DEALLOC_PD.
    DeallocPd {
        pd: u32,
    },
    /// ALLOC_UAR: gives a page of doorbell registers.
    AllocUar,
    /// DEALLOC_UAR.
    DeallocUar {
        page: u32,
    },
    /// CREATE_MKEY: makes a memory key.
    CreateMkey(MkeyContext),
    /// DESTROY_MKEY. `key` is the whole key, its index above its variant of 8 bits (own).
    DestroyMkey {
        key: u32,
    },
    /// CREATE_EQ: makes an event queue.
    CreateEq(EqBlock),
    /// DESTROY_EQ.
    DestroyEq {
        eq: u32,
    },
    /// CREATE_CQ: makes a completion queue.
    CreateCq(CqContext),
    /// DESTROY_CQ.
    DestroyCq {
        cq: u32,
    },
    /// MODIFY_CQ that resizes: moves a completion queue to its area 0 or 1 (own).
    ModifyCq {
        cq: u32,
        area: u32,
        context: CqContext,
    },
    /// CREATE_SRQ: makes a shared receive queue.
    CreateSrq(SrqBlock),
    /// DESTROY_SRQ.
    DestroySrq {
        srq: u32,
    },
    /// CREATE_QP: makes a queue pair, in the state Reset.
    CreateQp(QpBlock),
    /// DESTROY_QP.
    DestroyQp {
        qp: u32,
    },
    /// RST2INIT_QP.
    RstToInit {
        qp: u32,
    },
    /// INIT2RTR_QP. `peer` is the queue pair at the other end (own).
    InitToRtr {
        qp: u32,
        peer: u32,
    },
    /// RTR2RTS_QP.
    RtrToRts {
        qp: u32,
    },
    /// 2ERR_QP: moves a queue pair to the error state.
    ToErr {
        qp: u32,
    },
}

impl Command {
    /// The command's row in the table of commands.
    pub(crate) fn kind(&self) -> Kind
        ensures { result ≡ kind_of self.now }
    {
        match self {
            Command::EnableHca => Kind::EnableHca,
            Command::DisableHca => Kind::DisableHca,
            Command::InitHca => Kind::InitHca,
            Command::TeardownHca => Kind::TeardownHca,
            Command::QueryPages(PageUse::Boot) => Kind::QueryBootPages,
            Command::QueryPages(PageUse::Init) => Kind::QueryInitPages,
            Command::GivePages(_) => Kind::GivePages,
            Command::ReturnPages { .. } => Kind::ReturnPages,
            Command::AllocPd => Kind::AllocPd,
            Command::DeallocPd { .. } => Kind::DeallocPd,
            Command::AllocUar => Kind::AllocUar,
            Command::DeallocUar { .. } => Kind::DeallocUar,
            Command::CreateMkey(_) => Kind::CreateMkey,
            Command::DestroyMkey { .. } => Kind::DestroyMkey,
            Command::CreateEq(_) => Kind::CreateEq,
            Command::DestroyEq { .. } => Kind::DestroyEq,
            Command::CreateCq(_) => Kind::CreateCq,
            Command::DestroyCq { .. } => Kind::DestroyCq,
            Command::ModifyCq { .. } => Kind::ModifyCq,
            Command::CreateSrq(_) => Kind::CreateSrq,
            Command::DestroySrq { .. } => Kind::DestroySrq,
            Command::CreateQp(_) => Kind::CreateQp,
            Command::DestroyQp { .. } => Kind::DestroyQp,
            Command::RstToInit { .. } => Kind::RstToInit,
            Command::InitToRtr { .. } => Kind::InitToRtr,
            Command::RtrToRts { .. } => Kind::RtrToRts,
            Command::ToErr { .. } => Kind::ToErr,
        }
    }

    /// The number at byte 8 of the input, or 0 where the command has none.
    pub(crate) fn number(&self) -> u32
        ensures { result ≡ number_of self.now }
    {
        match self {
            Command::DeallocPd { pd } => *pd,
            Command::DeallocUar { page } => *page,
            Command::DestroyMkey { key } => *key,
            Command::DestroyEq { eq } => *eq,
            Command::DestroyCq { cq } => *cq,
            Command::ModifyCq { cq, .. } => *cq,
            Command::DestroySrq { srq } => *srq,
            Command::DestroyQp { qp } => *qp,
            Command::RstToInit { qp } => *qp,
            Command::InitToRtr { qp, .. } => *qp,
            Command::RtrToRts { qp } => *qp,
            Command::ToErr { qp } => *qp,
            Command::EnableHca
            | Command::DisableHca
            | Command::InitHca
            | Command::TeardownHca
            | Command::QueryPages(_)
            | Command::GivePages(_)
            | Command::ReturnPages { .. }
            | Command::AllocPd
            | Command::AllocUar
            | Command::CreateMkey(_)
            | Command::CreateEq(_)
            | Command::CreateCq(_)
            | Command::CreateSrq(_)
            | Command::CreateQp(_) => 0,
        }
    }

    /// The number at byte 12 of the input, or 0 where the command has none.
    pub(crate) fn second(&self) -> u32
        ensures { result ≡ second_of self.now }
    {
        match self {
            Command::GivePages(list) => list.count,
            Command::ReturnPages { count } => *count,
            Command::ModifyCq { area, .. } => *area,
            Command::InitToRtr { peer, .. } => *peer,
            Command::EnableHca
            | Command::DisableHca
            | Command::InitHca
            | Command::TeardownHca
            | Command::QueryPages(_)
            | Command::AllocPd
            | Command::DeallocPd { .. }
            | Command::AllocUar
            | Command::DeallocUar { .. }
            | Command::CreateMkey(_)
            | Command::DestroyMkey { .. }
            | Command::CreateEq(_)
            | Command::DestroyEq { .. }
            | Command::CreateCq(_)
            | Command::DestroyCq { .. }
            | Command::CreateSrq(_)
            | Command::DestroySrq { .. }
            | Command::CreateQp(_)
            | Command::DestroyQp { .. }
            | Command::RstToInit { .. }
            | Command::RtrToRts { .. }
            | Command::ToErr { .. } => 0,
        }
    }
}
