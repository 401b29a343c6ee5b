//! The notes of a poll.
ghost use Rattle.std.specs.Prelude.{◌≡◌, ◌<◌, ◌^◌};
ghost use Rattle.provider_poll.specs.Note as words;

use actor_map::EntryNumbers;
use bus_core::Note;
use verbs_types::Queue;

/// The note of a poll's last load. It asked for `most` completions and took `taken`, and the last owner word
/// showed the queue as published up to the index `seen`.
pub(crate) fn poll_note(cq: u32, most: u32, taken: u32, seen: u64) -> Note
    ensures { result ≡ words.poll_note cq most taken seen }
{
    let numbers = EntryNumbers::Poll {
        cq,
        most: most as u64,
        taken: taken as u64,
        seen,
    };
    numbers.note()
}

/// The note of the store of a tail in the send queue of a queue pair.
pub(crate) fn retire_note(qp: u32, tail: u64) -> Note
    requires { qp < 2 ^ 24 }
    ensures { result ≡ words.retire_note qp tail }
{
    let numbers = EntryNumbers::Retire {
        queue: Queue::Send(qp),
        count: tail,
    };
    numbers.note()
}

/// The note of the store of a consumer index.
pub(crate) fn ack_note(cq: u32, index: u64) -> Note
    ensures { result ≡ words.ack_note cq index }
{
    EntryNumbers::Ack { cq, index }.note()
}
