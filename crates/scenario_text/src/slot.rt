//! What may stand in a place of a line.
ghost use Rattle.std.specs.Prelude.{◌≡◌};
ghost use Rattle.scenario_text.specs.Slots as slots;

use crate::lines::{is_digits, is_name, is_number};
use crate::parts::{has_parts, part};
use crate::segment;

/// What a name stands for.
#[derive(Clone, Copy, Debug, PartialEq, Eq)]
pub enum Kind {
    Eq,
    Pd,
    Cq,
    Qp,
    /// A thread, or the adapter.
    Actor,
}

/// What may stand in a place of a line.
#[derive(Clone, Copy, Debug, PartialEq, Eq)]
pub enum Slot {
    /// A name that the line gives.
    NewName,
    /// The name of an object of this kind.
    Name(Kind),
    /// A queue pair that no `connect` line has named.
    Pair,
    /// A queue pair on whose send queue no other thread posts.
    Poster,
    /// A queue pair on whose receive queue no other thread posts.
    Receiver,
    /// A completion queue that no other thread polls.
    Poller,
    Number,
    /// `rq:` and a number.
    RecvLog,
    /// The operation of a request.
    Operation,
    /// `-`, or letters of `csf` in this order: completion wanted, solicited, fence.
    Flags,
    /// A scatter/gather entry.
    Segment,
    /// The name of an actor, or it with `*` and a number of turns.
    Turns,
}

/// What stands between the actor and the number of its turns.
pub const TIMES: u8 = b'*';

impl Slot {
    /// Whether the field has the form of what stands here.
    pub fn is_formed(self, field: &[u8]) -> bool
        ensures { result ≡ slots.is_formed self field.now }
    {
        match self {
            Slot::NewName
            | Slot::Name(_)
            | Slot::Pair
            | Slot::Poster
            | Slot::Receiver
            | Slot::Poller => is_name(field),
            Slot::Number => is_digits(field),
            Slot::RecvLog => field.starts_with(b"rq:") && is_digits(after_rq(field)),
            Slot::Operation => field == b"nop".as_slice(),
            Slot::Flags => are_flags(field),
            Slot::Segment => segment::is_formed(field),
            Slot::Turns => is_name(part(field, TIMES, 0)) && is_counted(field),
        }
    }

    /// Whether the digits of the field, if there are any, are a number.
    pub fn has_number(self, field: &[u8]) -> bool
        ensures { result ≡ slots.has_number self field.now }
    {
        match self {
            Slot::Number => is_number(field),
            Slot::RecvLog => is_number(after_rq(field)),
            Slot::Segment => segment::has_numbers(field),
            Slot::Turns => has_parts(field, TIMES, 1) || is_number(part(field, TIMES, 1)),
            _ => true,
        }
    }
}

/// What stands after `rq:`.
pub fn after_rq(field: &[u8]) -> &[u8]
    ensures { result.now ≡ slots.after_rq field.now }
{
    field.get(3..).unwrap_or(b"")
}

/// Whether nothing, or a row of digits, follows the name of an actor.
fn is_counted(field: &[u8]) -> bool
    ensures { result ≡ slots.is_counted field.now }
{
    has_parts(field, TIMES, 1) || has_parts(field, TIMES, 2) && is_digits(part(field, TIMES, 1))
}

fn are_flags(field: &[u8]) -> bool
    ensures { result ≡ slots.are_flags field.now }
{
    match field {
        b"-" | b"c" | b"s" | b"f" | b"cs" | b"cf" | b"sf" | b"csf" => true,
        _ => false,
    }
}

/// Whether one of the flags is this letter.
pub fn has_flag(field: &[u8], letter: u8) -> bool
    ensures { result ≡ slots.has_flag field.now letter }
{
    field.contains(&letter)
}
