//! What a note tells.
ghost use Rattle.std.specs.Prelude.{◌≡◌, ◌<◌, ◌^◌};
ghost use Rattle.actor_map.specs.Numbers as words;
ghost use Rattle.actor_map.specs.Numbers.{HasRoom};

use bus_core::Note;
use verbs_types::Queue;

/// The note of a post.
const POST: u8 = 1;

/// The note of a post that found its queue full.
const POST_FULL: u8 = 2;

/// The note of a poll.
const POLL: u8 = 3;

/// The note of a retirement.
const RETIRE: u8 = 4;

/// The note of an acknowledgement.
const ACK: u8 = 6;

/// The note of a fetch.
const FETCH: u8 = 14;

/// The note of a publication.
const PUBLISH: u8 = 18;

/// The numbers of a history entry, with the count of another actor that its maker saw: what a note tells of it.
#[derive(Clone, Copy, Debug, PartialEq, Eq)]
pub enum EntryNumbers {
    /// A post of `count` items. The tail that was loaded last is `seen`.
    Post {
        queue: Queue,
        count: u64,
        seen: u64,
    },
    /// A queue that is full of `head` requests less `tail`, after `pending` items of the call.
    PostFull {
        queue: Queue,
        pending: u64,
        head: u64,
        tail: u64,
    },
    /// A poll that asked for `most` completions and took `taken`. The last owner word showed the queue as published
    /// up to the index `seen`.
    Poll {
        cq: u32,
        most: u64,
        taken: u64,
        seen: u64,
    },
    /// The requests before `count` are retired.
    Retire {
        queue: Queue,
        count: u64,
    },
    /// The completions before `index` are acknowledged.
    Ack {
        cq: u32,
        index: u64,
    },
    /// The adapter takes the request with this number, counted from 1. As many as `seen` were shown.
    Fetch {
        queue: Queue,
        number: u64,
        seen: u64,
    },
    /// A completion is published. The consumer index that was loaded last is `seen`.
    Publish {
        cq: u32,
        seen: u64,
    },
}

impl EntryNumbers {
    /// The note that tells them. The number of a work queue's object has 24 bits.
    pub fn note(self) -> Note
        requires { HasRoom self }
        ensures { result ≡ words.note_with self }
    {
        match self {
            EntryNumbers::Post { queue, count, seen } => {
                note_of(POST, queue_number(queue), count, seen, 0)
            }
            EntryNumbers::PostFull {
                queue,
                pending,
                head,
                tail,
            } => note_of(POST_FULL, queue_number(queue), pending, head, tail),
            EntryNumbers::Poll {
                cq,
                most,
                taken,
                seen,
            } => note_of(POLL, cq, most, taken, seen),
            EntryNumbers::Retire { queue, count } => {
                note_of(RETIRE, queue_number(queue), count, 0, 0)
            }
            EntryNumbers::Ack { cq, index } => note_of(ACK, cq, index, 0, 0),
            EntryNumbers::Fetch {
                queue,
                number,
                seen,
            } => note_of(FETCH, queue_number(queue), number, seen, 0),
            EntryNumbers::Publish { cq, seen } => note_of(PUBLISH, cq, seen, 0, 0),
        }
    }

    /// The numbers that a note tells, if it is one of an entry.
    pub fn of(note: &Note) -> Option<EntryNumbers>
        ensures { result ≡ words.numbers_in note.now }
    {
        match note.kind {
            POST => Some(EntryNumbers::Post {
                queue: queue_of(note.object),
                count: note.a,
                seen: note.b,
            }),
            POST_FULL => Some(EntryNumbers::PostFull {
                queue: queue_of(note.object),
                pending: note.a,
                head: note.b,
                tail: note.c,
            }),
            POLL => Some(EntryNumbers::Poll {
                cq: note.object,
                most: note.a,
                taken: note.b,
                seen: note.c,
            }),
            RETIRE => Some(EntryNumbers::Retire {
                queue: queue_of(note.object),
                count: note.a,
            }),
            ACK => Some(EntryNumbers::Ack {
                cq: note.object,
                index: note.a,
            }),
            FETCH => Some(EntryNumbers::Fetch {
                queue: queue_of(note.object),
                number: note.a,
                seen: note.b,
            }),
            PUBLISH => Some(EntryNumbers::Publish {
                cq: note.object,
                seen: note.a,
            }),
            _ => None,
        }
    }
}

/// The note of these numbers.
fn note_of(kind: u8, object: u32, a: u64, b: u64, c: u64) -> Note
    ensures { result ≡ record { kind = kind; object = object; a = a; b = b; c = c; d = 0 } }
{
    Note {
        kind,
        object,
        a,
        b,
        c,
        d: 0,
    }
}

/// The number of a work queue in a note: 4 times its object's, plus 0 for sends, 1 for receives and 2 for shared
/// receives.
fn queue_number(queue: Queue) -> u32
    requires { words.object_of queue < 2 ^ 24 }
    ensures { result ≡ words.queue_number queue }
{
    match queue {
        Queue::Send(qp) => 4 * qp,
        Queue::Recv(qp) => 4 * qp + 1,
        Queue::Shared(srq) => 4 * srq + 2,
    }
}

/// The work queue of such a number.
fn queue_of(number: u32) -> Queue
    ensures { result ≡ words.queue_of number }
{
    match number % 4 {
        0 => Queue::Send(number / 4),
        1 => Queue::Recv(number / 4),
        _ => Queue::Shared(number / 4),
    }
}
