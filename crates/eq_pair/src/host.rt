//! The side of an event queue that takes.
ghost use Rattle.std.specs.Prelude.{◌≡◌, ◌<◌, ◌^◌, ◌↔◌, IsTrue, Some, None, true, false};
ghost use Rattle.bus_core.specs.Port.{Appends};
ghost use Rattle.bus_core.specs.declared.operation.BusEntry.{BusEntry};
ghost use Rattle.bus_core.specs.Turn.{IsWhole, count_note};
ghost use Rattle.owner_ring.specs.Place.{IsPlace};
ghost use Rattle.owner_ring.specs.Turn.{CanServe};
ghost use Rattle.eq_pair.specs.Law.{fresh_taker};
ghost use Rattle.eq_pair.specs.Place.{ring_of};
ghost use Rattle.eq_pair.specs.Host.{IsReadAs, KnowsLess, next_index};
ghost use Rattle.eq_pair.specs.HostView.{HostTurn, held, forgotten};

use crate::place::EqPlace;
use bus_core::{BusPort, Note, Step};
use cqe_format::decode_eqe;
use owner_ring::{RingConsumer, Taken};
use std::marker::Model;
use verbs_types::EventRecord;

/// What a taking came to.
#[derive(Clone, Copy, Debug, PartialEq, Eq)]
pub enum EqTaken {
    /// This event was taken, and the register shows it as taken.
    Event(EventRecord),
    /// There is no event: software does not own the next entry, by its last word.
    NoEvent { word: u64 },
}

/// What stands in the place of an event where eight words spell none. No adapter that keeps its rule
/// writes such words.
const UNSPELLED: EventRecord = EventRecord::Completion { cq: 0 };

/// Takes events, one bus operation a turn: a load of the next entry's last word, and where software
/// owns it the loads of words 0 to 6 in order and a store of the register. The register is the
/// Programmer's Reference Manual's; that it is stored after each event, which is given then, is this
/// project's own.
#[derive(Drop)]
pub struct EqHost {
    place: EqPlace,
    ring: RingConsumer,
    event: Option<EventRecord>,
}

impl Model for EqHost {
    ghost use Rattle.eq_pair.specs.HostView.{HostView};

    ghost Value = { HostView };

    ghost use Rattle.eq_pair.specs.HostInside.{host_view, IsHost};

    ghost view = { host_view };

    ghost invariant = { IsHost };
}

impl EqHost {
    /// An idle host of a queue of which no event was taken.
    pub fn new(at: EqPlace) -> EqHost
        requires ring { IsPlace (ring_of at) }
        requires number { at.number < 2 ^ 8 }
        ensures { result ≡ record { place = at; side = fresh_taker; taking = false; seen = 0 } }
    {
        EqHost {
            place: at,
            ring: RingConsumer::new(at.ring(), 0),
            event: None,
        }
    }

    /// Starts to take the next event.
    pub fn begin_take(&mut self)
        requires idle { self.old.taking ≡ false }
        requires index { next_index self.old.side < 2 ^ 62 }
        ensures { self.new ≡ record self.old { taking = true } }
    {
        self.ring.begin_take();
    }

    /// Whether nothing is under way.
    pub fn is_idle(&self) -> bool
        ensures { IsTrue result ↔ (self.now.taking ≡ false) }
    {
        self.ring.is_idle()
    }

    /// The event whose words were all read, until the register is stored and it is given: the turn
    /// that loads the last of them takes it, and answers that the taking goes on.
    pub fn taken(&self) -> Option<EventRecord>
        ensures { result ≡ held self.now.side }
    {
        self.event
    }

    /// Up to which index the last owner word showed the queue as written, in field `a`; 0 before the
    /// first.
    pub fn seen(&self) -> Note
        ensures { result ≡ count_note self.now.seen }
    {
        self.ring.seen()
    }

    /// Drops what is under way: the host is idle, and takes the same event again. A caller that has
    /// told of the event that `taken` shows goes on instead.
    pub fn forget(&mut self)
        ensures value { self.new ≡ forgotten self.old }
        ensures less { KnowsLess self.new.side self.old.side }
    {
        self.ring.forget();
        self.event = None;
    }

    /// Makes one operation.
    pub fn turn<P: BusPort>(&mut self, port: &mut P) -> Step<(), EqTaken>
        requires busy { IsTrue self.old.taking }
        requires port { CanServe (ring_of self.old.place) (P.port port.old) }
        ensures made { (e : BusEntry) × Appends (P.port port.old) (P.port port.new) e × HostTurn self.old self.new e result }
        ensures whole { IsWhole result }
    {
        if let Some(event) = self.event.take() {
            self.ring.turn(port);
            return Step::Done(EqTaken::Event(event));
        }
        match self.ring.turn(port) {
            Step::Done(Taken::Entry { words, .. }) => {
                self.event = Some(event_of(&words));
                self.ring.begin_register(self.place.number);
                Step::More
            }
            Step::Done(Taken::Empty { word, .. }) => Step::Done(EqTaken::NoEvent { word }),
            Step::Done(Taken::Acked { .. }) | Step::More | Step::Gave(()) => Step::More,
        }
    }
}

/// The event that the words spell.
fn event_of(words: &[u64; 8]) -> EventRecord
    ensures { IsReadAs words.now result }
{
    decode_eqe(words).unwrap_or(UNSPELLED)
}
