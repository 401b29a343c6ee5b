//! Calls that take completions.
ghost use Rattle.std.specs.Prelude.{◌≡◌};
ghost use Rattle.bus_core.specs.Port.{Appends};
ghost use Rattle.bus_core.specs.declared.operation.BusEntry.{BusEntry};
ghost use Rattle.provider_poll.specs.Poll.{CanPoll};
ghost use Rattle.thread_actor.specs.Polls.{MayGoOn, GoesOn, CanBegin, Ready, CanPollAt, Polls, begun};
ghost use Rattle.thread_actor.specs.Polls as words;

use crate::given::Given;
use bus_core::{BusPort, Note, Step};
use provider_poll::{PollAnswer, PollSide};
use verbs_types::Completion;

/// What an operation of a poll came to.
#[derive(Clone, Copy)]
pub(crate) struct Polled {
    /// How many completions the poll took, where it is over.
    pub taken: Option<u32>,
    /// The operation's note.
    pub noted: Option<Note>,
}

impl Polled {
    /// The note in a drain, which has none of a poll that took none.
    pub fn note_in_drain(&self) -> Option<Note>
        ensures { result ≡ words.note_in_drain self.now }
    {
        match self.taken {
            Some(0) => None,
            _ => self.noted,
        }
    }
}

/// Makes the next operation of a poll of at most `max` completions, which may be about to begin.
pub(crate) fn poll<P: BusPort>(
    sides: &mut [Option<PollSide>],
    place: usize,
    max: u32,
    given: &mut Given,
    port: &mut P,
) -> Polled
    requires ready { Ready sides.old place max given.old }
    requires port { CanPollAt sides.old place (P.port port.old) }
    ensures { (e : BusEntry) × Appends (P.port port.old) (P.port port.new) e × Polls sides.old sides.new place max given.old given.new e result }
{
    match &mut sides[place] {
        Some(side) => poll_on(side, max, given, port),
        None => unreachable!(),
    }
}

fn poll_on<P: BusPort>(side: &mut PollSide, max: u32, given: &mut Given, port: &mut P) -> Polled
    requires may { MayGoOn side.old max given.old }
    requires port { CanPoll side.old (P.port port.old) }
    ensures { (e : BusEntry) × Appends (P.port port.old) (P.port port.new) e × GoesOn side.old side.new max given.old given.new e result }
{
    begin_poll(side, max);
    let answer = side.turn(port);
    given.follow(answer);
    Polled {
        taken: taken_by(answer),
        noted: side.note(),
    }
}

/// Begins a poll of at most `max` completions, where none is under way.
fn begin_poll(side: &mut PollSide, max: u32)
    requires { CanBegin side.old max }
    ensures { side.new ≡ begun side.old max }
{
    if side.is_idle() {
        side.begin_poll(max);
    }
}

/// How many completions the poll took, where the operation was its last one.
fn taken_by(answer: Step<Completion, PollAnswer>) -> Option<u32>
    ensures { result ≡ words.taken_by answer }
{
    match answer {
        Step::Done(PollAnswer::Polled { taken, .. }) => Some(taken),
        Step::More | Step::Gave(_) => None,
    }
}
