//! The tests of an entry that look at no more than the entry and a queue.
ghost use Rattle.std.specs.Prelude.{◌≡◌};
ghost use Rattle.verbs_rules.specs.Rules as rules;
ghost use Rattle.verbs_rules.specs.Rows as rows;
ghost use Rattle.verbs_rules.specs.Same as same;

use verbs_types::{ADAPTER, Body, CONTROL, Completion, Item, Queue, Unpolled, What};

/// The most bytes that may stand in a request itself.
const MAX_INLINE: usize = 60;

/// Whether an actor is a thread, or the one that opens and closes the adapter.
fn is_host(actor: u8) -> bool
    ensures { result ≡ rules.is_host actor }
{
    (1 <= actor && actor <= 16) || actor == CONTROL
}

/// Whether an entry is one of this actor's.
pub(crate) fn is_by(actor: u8, what: &What) -> bool
    ensures { result ≡ rules.is_by actor what.now }
{
    match what {
        What::Post { .. }
        | What::PostFull { .. }
        | What::Poll { .. }
        | What::Retire { .. }
        | What::Free { .. }
        | What::Ack { .. }
        | What::Arm { .. }
        | What::TakeEvent { .. }
        | What::Submit { .. }
        | What::Reply { .. }
        | What::ReadByte { .. }
        | What::WriteByte { .. }
        | What::Clean { .. } => is_host(actor),
        What::Fetch { .. }
        | What::TakeReceive { .. }
        | What::GetByte { .. }
        | What::PutByte { .. }
        | What::Publish { .. }
        | What::SeeArm { .. }
        | What::Event { .. }
        | What::Overrun { .. }
        | What::Lost { .. }
        | What::Execute { .. } => actor == ADAPTER,
    }
}

fn body_fits(segments: u32, body: &Body) -> bool
    ensures { result ≡ rows.body_fits segments body.now }
{
    match body {
        Body::Sges(sges) => sges.len() <= segments as usize,
        Body::Inline(bytes) => bytes.len() <= MAX_INLINE,
    }
}

/// Whether an item is of the queue's kind, and has no more segments than it allows.
pub(crate) fn item_fits(queue: Queue, segments: u32, item: &Item) -> bool
    ensures { result ≡ rows.item_fits queue segments item.now }
{
    match (queue, item) {
        (Queue::Send(_), Item::Request(request)) => body_fits(segments, &request.body),
        (Queue::Recv(_) | Queue::Shared(_), Item::Receive(receive)) => {
            receive.sges.len() <= segments as usize
        }
        _ => false,
    }
}

/// Whether two completions say the same.
pub(crate) fn is_same(a: &Completion, b: &Completion) -> bool
    ensures { result ≡ same.same_completion a.now b.now }
{
    *a == *b
}

/// Whether completions are the first of those that no poll took.
pub(crate) fn is_front(completions: &[Completion], unpolled: &[Unpolled]) -> bool
    ensures { result ≡ same.is_front completions.now unpolled.now }
{
    for (place, completion) in completions.iter().enumerate() {
        match unpolled.get(place) {
            Some(first) if is_same(completion, &first.completion) => {}
            _ => return false,
        }
    }
    true
}
