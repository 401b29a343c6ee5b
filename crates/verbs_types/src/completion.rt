//! What the adapter reports.

/// A work queue.
#[derive(Clone, Copy, Debug, PartialEq, Eq)]
pub enum Queue {
    /// The send queue of the queue pair with this number.
    Send(u32),
    /// The receive queue of the queue pair with this number.
    Recv(u32),
    /// The shared receive queue with this number.
    Shared(u32),
}

/// What a completion is of.
#[derive(Clone, Copy, Debug, PartialEq, Eq)]
pub enum Kind {
    Nop,
    Send,
    Write,
    Read,
    Cas,
    Faa,
    Recv,
    RecvImm,
    RecvWrite,
    Failed,
}

/// A work completion (InfiniBand specification; `ibv_wc` of rdma-core).
#[derive(Clone, Copy, Debug, PartialEq, Eq)]
pub struct Completion {
    /// The queue whose request or receive this completes.
    pub queue: Queue,
    /// The number of the queue pair.
    pub qp: u32,
    /// The id of the request or receive.
    pub id: u64,
    /// The status: 0 is success, other numbers are those of `ibv_wc_status`.
    pub status: u8,
    pub kind: Kind,
    /// The length of the message in bytes.
    pub len: u32,
    pub imm: Option<u32>,
    pub solicited: bool,
}

/// Which completions make an armed completion queue report an event.
#[derive(Clone, Copy, Debug, PartialEq, Eq)]
pub enum ArmKind {
    /// Any completion.
    Any,
    /// A solicited one: of a message that asks for it, or of a failure.
    Solicited,
}

/// What an event queue reports of a completion queue.
#[derive(Clone, Copy, Debug, PartialEq, Eq)]
pub enum EventRecord {
    /// An armed completion queue passed its index.
    Completion { cq: u32 },
    /// A completion queue has overrun.
    CqError { cq: u32 },
}
