//! The notes of a post.
ghost use Rattle.std.specs.Prelude.{◌≡◌, ◌<◌, ◌^◌};
ghost use Rattle.actor_map.specs.Numbers.{object_of};
ghost use Rattle.provider_post.specs.Note as words;

use crate::call::Call;
use crate::post_step::PostStep;
use actor_map::EntryNumbers;
use bus_core::Note;
use verbs_types::Queue;

/// The note of an operation that told this, where the tail that was loaded last is `seen`.
pub(crate) fn note_of(queue: Queue, call: &Call, told: PostStep, seen: u64) -> Option<Note>
    requires { object_of queue < 2 ^ 24 }
    ensures { result ≡ words.note_of queue call.now told seen }
{
    match told {
        PostStep::Nothing | PostStep::Wrote => None,
        PostStep::Full { head, .. } => {
            let numbers = EntryNumbers::PostFull {
                queue,
                pending: call.accepted as u64,
                head,
                tail: seen,
            };
            Some(numbers.note())
        }
        PostStep::Rang => {
            let numbers = EntryNumbers::Post {
                queue,
                count: call.accepted as u64,
                seen,
            };
            Some(numbers.note())
        }
    }
}
