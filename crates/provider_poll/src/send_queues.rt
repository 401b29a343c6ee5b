//! The send queues that complete to one completion queue.
ghost use Rattle.std.specs.Prelude.{◌≡◌, ◌<◌, ◌^◌, length, map, true};
ghost use Rattle.bus_core.specs.Port.{Appends};
ghost use Rattle.bus_core.specs.declared.operation.BusEntry.{BusEntry};
ghost use Rattle.provider_poll.specs.SendQueue.{forgotten_queue, asking, retiring};
ghost use Rattle.provider_poll.specs.SendQueues.{HasEachPlace};
ghost use Rattle.provider_poll.specs.SendQueues as each_place;
ghost use Rattle.provider_poll.specs.Stores as stores;
ghost use Rattle.provider_poll.specs.PollStep as words;
ghost use Rattle.provider_poll.specs.Turns.{CanServeEach, TurnsOne, StoresOne};

use crate::send_queue::SendQueue;
use crate::state::End;
use bus_core::{BusPort, Step};
use counted_ring::Retired;
use std::marker::Model;
use verbs_types::FIRST_QP;

/// The send queues that complete to one completion queue, in the order of their queue pairs' numbers. That
/// of a queue pair is found without a search.
#[derive(Drop)]
pub struct SendQueues {
    queues: Vec<SendQueue>,
    /// The place of each queue pair's queue, from the first queue pair on; none where it completes
    /// elsewhere.
    places: Vec<Option<usize>>,
}

impl Model for SendQueues {
    ghost use Rattle.std.specs.Prelude.{List};
    ghost use Rattle.provider_poll.specs.SendQueue.{SendView};

    ghost Value = { List SendView };

    ghost use Rattle.provider_poll.specs.SendQueuesInside.{queues_view, IsSendQueues};

    ghost view = { queues_view };

    ghost invariant = { IsSendQueues };
}

impl SendQueues {
    /// These queues, of which each has this place.
    pub(crate) fn over(queues: Vec<SendQueue>, places: Vec<Option<usize>>) -> SendQueues
        requires { HasEachPlace places.items queues.items }
        ensures { result ≡ queues.items }
    {
        SendQueues { queues, places }
    }

    /// The place of the queue of this queue pair.
    pub(crate) fn place_of(&self, number: u32) -> Option<usize>
        ensures { result ≡ words.place_of_number self.now number }
    {
        place_among(self.places.as_slice(), number)
    }

    /// Whether the queue of this end may store it.
    pub(crate) fn may_store(&self, end: &End) -> bool
        ensures { result ≡ stores.may_store self.now end.now }
    {
        match self.queues.get(end.queue) {
            None => false,
            Some(queue) => queue.may_retire(end.end),
        }
    }

    /// Makes the next operation of the lookup of a counter, in the queue of this place.
    pub(crate) fn look_up<P: BusPort>(
        &mut self,
        queue: usize,
        counter: u16,
        port: &mut P,
    ) -> Step<(), Retired>
        requires inside { queue < length self.old }
        requires port { CanServeEach self.old (P.port port.old) }
        ensures { (e : BusEntry) × Appends (P.port port.old) (P.port port.new) e × TurnsOne self.old self.new queue (asking counter) e result }
    {
        self.queues[queue].look_up(counter, port)
    }

    /// Stores an end in its queue. The number of its queue pair.
    pub(crate) fn retire<P: BusPort>(&mut self, end: End, port: &mut P) -> u32
        requires may { stores.may_store self.old end ≡ true }
        requires port { CanServeEach self.old (P.port port.old) }
        ensures low { result < 2 ^ 24 }
        ensures turn { (e : BusEntry) × Appends (P.port port.old) (P.port port.new) e × StoresOne self.old self.new end e result }
    {
        let queue = &mut self.queues[end.queue];
        queue.retire(end.end, port);
        queue.number()
    }

    /// Drops what each queue has under way.
    pub(crate) fn forget(&mut self)
        ensures { self.new ≡ map forgotten_queue self.old }
    {
        forget_each(self.queues.as_mut_slice());
    }
}

/// The place that these have for a queue pair.
fn place_among(places: &[Option<usize>], number: u32) -> Option<usize>
    ensures { result ≡ each_place.place_among places.now number }
{
    if number < FIRST_QP {
        return None;
    }
    match places.get((number - FIRST_QP) as usize) {
        Some(place) => *place,
        None => None,
    }
}

/// Drops what each queue has under way.
fn forget_each(queues: &mut [SendQueue])
    ensures { queues.new ≡ map forgotten_queue queues.old }
{
    for queue in queues.iter_mut() {
        queue.forget();
    }
}
