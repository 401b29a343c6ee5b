//! The stores of a poll.
ghost use Rattle.std.specs.Prelude.{◌≡◌};
ghost use Rattle.provider_poll.specs.Stores as words;

use crate::send_queues::SendQueues;
use crate::state::{End, Ends, PollState};

/// A poll that took `taken` completions, before its next store: that of the first of these ends that its
/// queue may store, or of the consumer index where there is none. An adapter that keeps its rule leaves
/// no end that may not be stored.
pub(crate) fn storing(
    queues: &SendQueues,
    taken: u32,
    empty: Option<u64>,
    mut left: Ends,
) -> PollState
    ensures { result ≡ words.storing queues.now taken empty left.items }
{
    while !is_ready(queues, left.as_slice()) {
        left.remove(0);
    }
    if left.is_empty() {
        PollState::Acking { taken, empty }
    } else {
        PollState::Retiring { taken, empty, left }
    }
}

/// Whether the first of these ends may be stored, or there is none.
fn is_ready(queues: &SendQueues, ends: &[End]) -> bool
    ensures { result ≡ words.is_ready queues.now ends.now }
{
    match ends.first() {
        None => true,
        Some(end) => queues.may_store(end),
    }
}
