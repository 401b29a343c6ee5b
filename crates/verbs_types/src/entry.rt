//! The entries of a history, and why one may be refused.

use crate::command::{Answer, HistoryCommand};
use crate::completion::{ArmKind, Completion, EventRecord, Queue};
use crate::request::Item;
use crate::sequence::Sequence;
use thiserror::Error;

/// The actor number of the adapter. Threads are 1 to 16.
pub const ADAPTER: u8 = 0;

/// The actor number of the one that opens and closes the adapter.
pub const CONTROL: u8 = 31;

/// One entry of a history: who made it, and what it says.
#[derive(Clone, Debug, Drop)]
pub struct Entry {
    pub actor: u8,
    pub what: What,
}

/// What an entry says. Threads make those up to `Clean`, as does the one that opens and closes the adapter;
/// the adapter makes the others.
///
/// Indices and counts are whole numbers; bytes are named by their address in the arena.
#[derive(Clone, Debug, Drop)]
pub enum What {
    /// The queue took these items.
    Post {
        queue: Queue,
        items: Sequence<Item>,
    },
    /// The queue was full. `pending` requests of the same call were accepted before; `head` counts the
    /// requests posted, those included, and `tail` the requests retired.
    PostFull {
        queue: Queue,
        pending: u64,
        head: u64,
        tail: u64,
    },
    /// A poll for at most `max` took these completions, the oldest first.
    Poll {
        cq: u32,
        max: u64,
        completions: Sequence<Completion>,
    },
    /// The queue's requests are retired up to this count.
    Retire {
        queue: Queue,
        count: u64,
    },
    /// The oldest completion that was polled of this shared receive queue is done with, and its place free.
    Free {
        srq: u32,
    },
    /// The consumer index is now this whole number.
    Ack {
        cq: u32,
        index: u64,
    },
    /// The completion queue is to report its next event, from this index on. `number` is its arm sequence
    /// number, modulo 4.
    Arm {
        cq: u32,
        kind: ArmKind,
        index: u64,
        number: u64,
    },
    /// The oldest event was taken, or there was none.
    TakeEvent {
        eq: u32,
        event: Option<EventRecord>,
    },
    /// The maker's command slot asks for this.
    Submit {
        command: HistoryCommand,
    },
    /// The answer of the maker's command slot was read.
    Reply {
        command: HistoryCommand,
        answer: Answer,
    },
    /// The program read this byte.
    ReadByte {
        addr: u64,
        byte: u8,
    },
    /// The program wrote this byte.
    WriteByte {
        addr: u64,
        byte: u8,
    },
    /// The completions of a destroyed queue pair left the completion queue, whose consumer index is now
    /// this one.
    Clean {
        cq: u32,
        qp: u32,
        index: u64,
    },
    /// The adapter took the request or receive of this number, counted from 1.
    Fetch {
        queue: Queue,
        number: u64,
    },
    /// The adapter took the next receive.
    TakeReceive {
        queue: Queue,
    },
    /// The adapter read this byte.
    GetByte {
        addr: u64,
        byte: u8,
    },
    /// The adapter wrote this byte.
    PutByte {
        addr: u64,
        byte: u8,
    },
    /// The adapter wrote this completion.
    Publish {
        cq: u32,
        completion: Completion,
    },
    /// The adapter saw that the completion queue is armed.
    SeeArm {
        cq: u32,
        kind: ArmKind,
        index: u64,
        number: u64,
    },
    /// The adapter reported this event.
    Event {
        eq: u32,
        event: EventRecord,
    },
    /// The adapter found no place for the completion of this index, and `acked` acknowledged.
    Overrun {
        cq: u32,
        index: u64,
        acked: u64,
    },
    /// A completion was dropped, since the queue has overrun before.
    Lost {
        cq: u32,
    },
    /// The adapter did the command of an actor's command slot.
    Execute {
        actor: u8,
        command: HistoryCommand,
        answer: Answer,
    },
}

/// The rules of a step, in the order in which they are tested.
#[derive(Clone, Copy, Debug, PartialEq, Eq)]
pub enum RuleName {
    /// The entry is one of its actor's.
    Actor,
    /// Each object that the entry names lives.
    Object,
    /// An event that is due comes before all else that the adapter does.
    Due,
    /// The entry is what the adapter has in hand to do.
    Hand,
    /// Its numbers are those of the queues.
    Count,
    /// What it holds is what the queues hold.
    Content,
    /// A memory key permits it.
    Key,
}

/// The entry with this place in the history, counted from 0, has no step, by its first failing rule.
#[derive(Clone, Copy, Debug, PartialEq, Eq)]
pub struct Illegal {
    pub at: u64,
    pub rule: RuleName,
}

/// Why an entry or a history was not accepted.
#[derive(Debug, Drop, Error)]
pub enum CheckFault {
    #[error("entry {} has no step", .0.at)]
    Illegal(Illegal),
    #[error("out of memory")]
    NoMemory,
}

/// Memory ran out.
#[derive(Clone, Copy, Debug, PartialEq, Eq, Error)]
#[error("out of memory")]
pub struct NoMemory;
