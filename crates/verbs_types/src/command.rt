//! The commands of the command interface, as a history tells of them.

use crate::declaration::Object;
use crate::name::Name;

/// Which pages QUERY_PAGES asks for.
#[derive(Clone, Copy, Debug, PartialEq, Eq)]
pub enum PageUse {
    /// Those that the adapter needs before INIT_HCA.
    Boot,
    /// Those that it needs for INIT_HCA.
    Init,
}

/// What a memory key permits (the bits `lr`, `lw`, `rr`, `rw` and `a` of a memory key context).
#[derive(Clone, Copy, Debug, PartialEq, Eq)]
pub struct Rights {
    pub local_read: bool,
    pub local_write: bool,
    pub remote_read: bool,
    pub remote_write: bool,
    pub atomic: bool,
}

/// A piece of memory that is to have a key.
#[derive(Clone, Debug, Drop)]
pub struct Region {
    /// The program's own name for it: no object has its number before the key is made.
    pub name: Name,
    /// The number of its protection domain.
    pub pd: u32,
    /// The first byte.
    pub start: u64,
    /// How many bytes.
    pub len: u64,
    pub rights: Rights,
    /// The low 8 bits of its key.
    pub variant: u8,
}

/// A command of the Programmer's Reference Manual, with what tells it from the others of its kind.
#[derive(Clone, Debug, Drop)]
pub enum HistoryCommand {
    /// ENABLE_HCA.
    Enable,
    /// DISABLE_HCA.
    Disable,
    /// QUERY_PAGES.
    QueryPages(PageUse),
    /// MANAGE_PAGES that gives `count` pages.
    GivePages { count: u64 },
    /// MANAGE_PAGES that asks for `count` pages back.
    ReturnPages { count: u64 },
    /// INIT_HCA.
    Init,
    /// TEARDOWN_HCA.
    Teardown,
    /// ALLOC_PD, CREATE_EQ, CREATE_CQ or CREATE_QP of a declared object.
    Make { object: Object },
    /// ALLOC_UAR, which is to give the page of this number.
    AllocUar { page: u64 },
    /// CREATE_MKEY. The key is told once it is made.
    MakeKey { region: Region, key: Option<u32> },
    /// DESTROY_MKEY.
    DestroyKey { key: u32 },
    /// RST2INIT_QP.
    RstToInit { qp: u32 },
    /// INIT2RTR_QP, with the queue pair at the other end.
    InitToRtr { qp: u32, peer: u32 },
    /// RTR2RTS_QP.
    RtrToRts { qp: u32 },
    /// 2ERR_QP.
    ToErr { qp: u32 },
    /// MODIFY_CQ to a size of 2^`log`.
    Modify { cq: u32, log: u64 },
    /// DEALLOC_PD, DESTROY_EQ, DESTROY_CQ or DESTROY_QP of a declared object.
    Destroy { object: Object },
    /// DEALLOC_UAR of the page of this number.
    DeallocUar { page: u64 },
}

/// How the adapter answered a command.
#[derive(Clone, Copy, Debug, PartialEq, Eq)]
pub enum Answer {
    /// It was looked at, and ended with this command status: 0 is success.
    Status(u8),
    /// It was not taken, with this delivery status of its command entry.
    Delivery(u8),
}
