//! A thread's next operation.
ghost use Rattle.std.specs.Prelude.{◌≡◌, ◌≤◌, ◌^◌, false, IfOk};
ghost use Rattle.bus_core.specs.Port.{Appends, HasRoom};
ghost use Rattle.bus_core.specs.declared.operation.BusEntry.{BusEntry};
ghost use Rattle.actor_map.specs.Map.{map_of};
ghost use Rattle.actor_map.specs.Sizes.{words_of};
ghost use Rattle.thread_actor.specs.Fresh.{CanRun, IsFresh};
ghost use Rattle.thread_actor.specs.Inside.{view_of};
ghost use Rattle.thread_actor.specs.Small.{IsSmall};
ghost use Rattle.thread_actor.specs.Stands.{IsThread};
ghost use Rattle.thread_actor.specs.Turn.{ThreadTurn};

use crate::end::end;
use crate::given::Given;
use crate::polls::poll;
use crate::posts::{post, receive};
use crate::progress::Progress;
use crate::sides::{Sides, place_of};
use actor_map::AddressMap;
use bus_core::{BusPort, Note};
use object_places::laws::places;
use std::alloc::Global;
use std::snapshot::Snapshot;
use verbs_types::{Call, Declared, NoMemory, Sequence};

/// A thread between two operations.
#[derive(Drop)]
pub(crate) struct Thread {
    pub lines: Snapshot<Declared>,
    pub number: u8,
    pub calls: Sequence<Call>,
    pub progress: Progress,
    pub sides: Sides,
    /// The completions that the poll under way has given.
    pub given: Given,
    pub ended: bool,
}

impl Thread {
    pub fn new(
        alloc: Global,
        d: &Declared,
        map: &AddressMap,
        number: u8,
        calls: Sequence<Call>,
    ) -> Result<Thread, NoMemory>
        requires map { map.now ≡ map_of d.now }
        requires fits { words_of d.now ≤ 2 ^ 20 }
        requires run { CanRun d.now number calls }
        ensures fresh { IfOk result (λ t. IsFresh d.now number calls (view_of t)) }
        ensures stands { IfOk result (λ t. IsThread (view_of t)) }
    {
        let sides = Sides::new(alloc, d, map, calls.as_slice())?;
        Ok(Thread {
            lines: Snapshot::of(d),
            number,
            calls,
            progress: Progress::start(),
            sides,
            given: Given::none(alloc)?,
            ended: false,
        })
    }

    /// Makes the next operation, and gives its note.
    pub fn turn<P: BusPort>(&mut self, port: &mut P) -> Option<Note>
        requires stands { IsThread (view_of self.old) }
        requires going { self.old.ended ≡ false }
        requires small { IsSmall (view_of self.old) }
        requires inside { words_of self.old.lines.value ≤ (P.port port.old).words }
        requires room { HasRoom (P.port port.old).room }
        ensures operation { (e : BusEntry) × Appends (P.port port.old) (P.port port.new) e × ThreadTurn (view_of self.old) (view_of self.new) e result × IsThread (view_of self.new) }
        ensures finished { self.old.progress.finished ≤ self.new.progress.finished }
    {
        // Where the queues' words lie.
        places();
        match self.calls.as_slice().get(self.progress.finished) {
            None => {
                end(self.number, port);
                self.ended = true;
                None
            }
            Some(Call::Post { qp, requests }) => {
                let sides = self.sides.sends.as_mut_slice();
                let posted = post(sides, place_of(*qp), requests.as_slice(), port);
                self.progress = self.progress.after_post(posted.is_over);
                posted.noted
            }
            Some(Call::Recv { qp, receives }) => {
                let sides = self.sides.receives.as_mut_slice();
                let posted = receive(sides, place_of(*qp), receives.as_slice(), port);
                self.progress = self.progress.after_post(posted.is_over);
                posted.noted
            }
            Some(Call::Poll { cq, max }) => {
                let sides = self.sides.polls.as_mut_slice();
                let polled = poll(sides, *cq as usize, *max, &mut self.given, port);
                self.progress = self.progress.after_poll(polled.taken);
                polled.noted
            }
            Some(Call::Drain { cq, count }) => {
                let sides = self.sides.polls.as_mut_slice();
                let polled = poll(sides, *cq as usize, 1, &mut self.given, port);
                self.progress = self.progress.after_drain(*count, polled.taken);
                polled.note_in_drain()
            }
        }
    }
}
