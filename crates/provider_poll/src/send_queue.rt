//! A send queue whose completions are polled.
ghost use Rattle.std.specs.Prelude.{◌≡◌, ◌<◌, ◌^◌, true};
ghost use Rattle.bus_core.specs.Port.{Appends};
ghost use Rattle.bus_core.specs.declared.operation.BusEntry.{BusEntry};
ghost use Rattle.counted_ring.specs.Place.{IsPlace, is_send};
ghost use Rattle.counted_ring.specs.Turn.{CanServe};
ghost use Rattle.provider_poll.specs.SendQueue.{SendTurn, fresh_queue, forgotten_queue, may_retire, asking, retiring};

use bus_core::{BusPort, Step};
use counted_ring::{Retired, WqPlace, WqRetirer};
use std::marker::Model;

/// Ends that are no counts of requests begin here: no queue takes this many.
const MAX_END: u64 = 1 << 62;

/// A send queue whose completions are polled: the number of its queue pair, and what looks its requests up
/// and retires them.
#[derive(Drop)]
pub struct SendQueue {
    number: u32,
    retirer: WqRetirer,
    /// The tail that was stored last.
    tail: u64,
}

impl Model for SendQueue {
    ghost use Rattle.provider_poll.specs.SendQueue.{SendView};

    ghost Value = { SendView };

    ghost use Rattle.provider_poll.specs.SendInside.{send_view, IsSendQueue};

    ghost view = { send_view };

    ghost invariant = { IsSendQueue };
}

impl SendQueue {
    /// The send queue of a queue pair, of which nothing was retired. Numbers of queue pairs have 24 bits.
    pub fn new(number: u32, place: WqPlace) -> SendQueue
        requires number { number < 2 ^ 24 }
        requires place { IsPlace place }
        requires send { is_send place ≡ true }
        ensures { result ≡ fresh_queue number place }
    {
        SendQueue {
            number,
            retirer: WqRetirer::new(place, 0),
            tail: 0,
        }
    }

    /// The number of the queue pair.
    pub(crate) fn number(&self) -> u32
        ensures number { result ≡ self.now.number }
        ensures low { result < 2 ^ 24 }
    {
        self.number
    }

    /// Whether this end may be stored: it is one that was found, above the tail. Ends that come from words
    /// which no poster stores may be others.
    #[tactic(auto, using(crate::proofs::Retirers::idle_is))]
    pub(crate) fn may_retire(&self, end: u64) -> bool
        ensures { result ≡ may_retire self.now end }
    {
        self.retirer.is_idle() && self.tail < end && end <= self.retirer.seen().a && end < MAX_END
    }

    /// Makes the next operation of the lookup of a counter.
    pub(crate) fn look_up<P: BusPort>(&mut self, counter: u16, port: &mut P) -> Step<(), Retired>
        requires port { CanServe self.old.place (P.port port.old) }
        ensures { (e : BusEntry) × Appends (P.port port.old) (P.port port.new) e × SendTurn self.old self.new (asking counter self.old) e result }
    {
        if self.retirer.is_idle() {
            if self.retirer.seen().a >= MAX_END {
                self.retirer.forget();
            }
            self.retirer.begin_lookup(counter);
        }
        self.retirer.turn(port)
    }

    /// Retires the requests below an end.
    pub(crate) fn retire<P: BusPort>(&mut self, end: u64, port: &mut P) -> Step<(), Retired>
        requires may { may_retire self.old end ≡ true }
        requires port { CanServe self.old.place (P.port port.old) }
        ensures { (e : BusEntry) × Appends (P.port port.old) (P.port port.new) e × SendTurn self.old self.new (retiring end self.old) e result }
    {
        self.retirer.begin_retire(end);
        self.tail = end;
        self.retirer.turn(port)
    }

    /// Drops what is under way and the ends that were found since the last tail.
    pub(crate) fn forget(&mut self)
        ensures { self.new ≡ forgotten_queue self.old }
    {
        self.retirer.forget();
    }
}
