//! What an operation of a poll leaves and tells.
ghost use Rattle.std.specs.Prelude.{◌≡◌, ◌<◌, ◌^◌, length};
ghost use Rattle.provider_poll.specs.PollStep as words;

use crate::answer::PollAnswer;
use crate::completion::{completion_of, is_of_request};
use crate::note::{ack_note, poll_note, retire_note};
use crate::send_queues::SendQueues;
use crate::state::{End, Ends, PollState};
use crate::stores::storing;
use bus_core::{Note, Step};
use counted_ring::Retired;
use cq_pair::CqDone;
use cqe_format::Cqe;
use verbs_types::Completion;

/// What an operation of a poll leaves and tells: how far the poll has come, the turn's answer, and the
/// operation's note.
#[derive(Debug, Drop)]
pub struct PollStep {
    pub state: PollState,
    pub answer: Step<Completion, PollAnswer>,
    pub noted: Option<Note>,
}

/// The place of the send queue whose request this completes.
fn place_of(queues: &SendQueues, c: &Cqe) -> Option<usize>
    ensures { result ≡ words.place_of queues.now c.now }
{
    if is_of_request(c) {
        queues.place_of(c.qpn)
    } else {
        None
    }
}

/// After an operation of the host's, by its answer. `seen` is up to which index the last owner word showed
/// the completion queue `number` as published.
pub(crate) fn after_look(
    number: u32,
    queues: &SendQueues,
    max: u32,
    ends: Ends,
    seen: u64,
    step: Step<(), CqDone>,
) -> PollStep
    requires { length ends.items < 16 }
    ensures { result ≡ words.after_look number queues.now max ends seen step }
{
    match step {
        Step::Done(CqDone::Took(completion)) => match place_of(queues, &completion) {
            Some(queue) => PollStep {
                state: PollState::LookingUp {
                    max,
                    ends,
                    completion,
                    queue,
                },
                answer: Step::More,
                noted: None,
            },
            None => {
                let given = completion_of(&completion, 0);
                with_end(
                    number,
                    queues,
                    max,
                    ends,
                    seen,
                    End { queue: 0, end: 0 },
                    given,
                )
            }
        },
        Step::Done(CqDone::Empty { word, .. }) => {
            with_none(number, queues, max, ends, seen, word)
        }
        Step::Done(CqDone::Acked { .. }) | Step::More | Step::Gave(()) => PollStep {
            state: PollState::Polling { max, ends },
            answer: Step::More,
            noted: None,
        },
    }
}

/// After an operation of a lookup, by its answer.
pub(crate) fn after_lookup(
    number: u32,
    queues: &SendQueues,
    max: u32,
    ends: Ends,
    seen: u64,
    completion: Cqe,
    queue: usize,
    step: Step<(), Retired>,
) -> PollStep
    requires { length ends.items < 16 }
    ensures { result ≡ words.after_lookup number queues.now max ends seen completion queue step }
{
    match step {
        Step::Done(Retired::Found { id, end }) => {
            let given = completion_of(&completion, id);
            with_end(number, queues, max, ends, seen, End { queue, end }, given)
        }
        Step::Done(Retired::Tail { .. }) | Step::More | Step::Gave(()) => PollStep {
            state: PollState::LookingUp {
                max,
                ends,
                completion,
                queue,
            },
            answer: Step::More,
            noted: None,
        },
    }
}

/// One more completion was taken, which has this end.
fn with_end(
    number: u32,
    queues: &SendQueues,
    max: u32,
    mut ends: Ends,
    seen: u64,
    end: End,
    given: Completion,
) -> PollStep
    requires { length ends.items < 16 }
    ensures { result ≡ words.with_end number queues.now max ends seen end given }
{
    ends.push(end);
    let taken = ends.len() as u32;
    if taken < max {
        PollStep {
            state: PollState::Polling { max, ends },
            answer: Step::Gave(given),
            noted: None,
        }
    } else {
        PollStep {
            state: storing(queues, taken, None, ends),
            answer: Step::Gave(given),
            noted: Some(poll_note(number, max, taken, seen)),
        }
    }
}

/// No completion is left, by this owner word.
fn with_none(
    number: u32,
    queues: &SendQueues,
    max: u32,
    ends: Ends,
    seen: u64,
    word: u64,
) -> PollStep
    requires { length ends.items < 16 }
    ensures { result ≡ words.with_none number queues.now max ends seen word }
{
    let taken = ends.len() as u32;
    let noted = Some(poll_note(number, max, taken, seen));
    let empty = Some(word);
    if taken == 0 {
        PollStep {
            state: PollState::Idle,
            answer: Step::Done(PollAnswer::Polled { taken, empty }),
            noted,
        }
    } else {
        PollStep {
            state: storing(queues, taken, empty, ends),
            answer: Step::More,
            noted,
        }
    }
}

/// After the store of an end in the send queue of this queue pair, before which these were left.
pub(crate) fn after_retire(
    queues: &SendQueues,
    taken: u32,
    empty: Option<u64>,
    left: Ends,
    pair: u32,
    end: u64,
) -> PollStep
    requires { pair < 2 ^ 24 }
    ensures { result ≡ words.after_retire queues.now taken empty left.items pair end }
{
    PollStep {
        state: storing(queues, taken, empty, left),
        answer: Step::More,
        noted: Some(retire_note(pair, end)),
    }
}

/// After the store of the consumer index.
pub(crate) fn after_ack(number: u32, taken: u32, empty: Option<u64>, index: u64) -> PollStep
    ensures { result ≡ words.after_ack number taken empty index }
{
    PollStep {
        state: PollState::Idle,
        answer: Step::Done(PollAnswer::Polled { taken, empty }),
        noted: Some(ack_note(number, index)),
    }
}
