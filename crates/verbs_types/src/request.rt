//! What a program asks of a queue pair.

use crate::sequence::Sequence;

/// A scatter/gather entry: a piece of registered memory (InfiniBand specification, "data segment").
#[derive(Clone, Copy, Debug, PartialEq, Eq)]
pub struct Sge {
    /// The memory key: an index times 256 plus a variant.
    pub key: u32,
    /// The first byte.
    pub addr: u64,
    /// How many bytes.
    pub len: u32,
}

/// The data of a request.
#[derive(Clone, Debug, Drop)]
pub enum Body {
    /// Pieces of registered memory, in order.
    Sges(Sequence<Sge>),
    /// Bytes that stand in the request itself.
    Inline(Sequence<u8>),
}

/// What a send request does, with what it needs for that.
#[derive(Clone, Copy, Debug, PartialEq, Eq)]
pub enum Op {
    Nop,
    Send,
    SendImm {
        imm: u32,
    },
    Write {
        raddr: u64,
        rkey: u32,
    },
    WriteImm {
        raddr: u64,
        rkey: u32,
        imm: u32,
    },
    Read {
        raddr: u64,
        rkey: u32,
    },
    /// Compare and swap of eight bytes.
    Cas {
        raddr: u64,
        rkey: u32,
        compare: u64,
        swap: u64,
    },
    /// Fetch and add of eight bytes.
    Faa {
        raddr: u64,
        rkey: u32,
        add: u64,
    },
}

/// A work request of a send queue.
#[derive(Clone, Debug, Drop)]
pub struct Request {
    /// The program's own number, which the completion gives back.
    pub id: u64,
    pub op: Op,
    /// A completion is wanted even where the request succeeds.
    pub wanted: bool,
    pub solicited: bool,
    pub fence: bool,
    pub body: Body,
}

/// A work request of a receive queue.
#[derive(Clone, Debug, Drop)]
pub struct Receive {
    /// The program's own number, which the completion gives back.
    pub id: u64,
    pub sges: Sequence<Sge>,
}

/// What stands in a work queue.
#[derive(Clone, Debug, Drop)]
pub enum Item {
    Request(Request),
    Receive(Receive),
}
