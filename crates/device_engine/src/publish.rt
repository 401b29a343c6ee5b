//! Publishing a completion.
ghost use Rattle.std.specs.Prelude.{◌≡◌, IsSome};
ghost use Rattle.bus_core.specs.Port.{Appends};
ghost use Rattle.bus_core.specs.declared.operation.BusEntry.{BusEntry};
ghost use Rattle.owner_ring.specs.Turn.{CanServe};
ghost use Rattle.cq_pair.specs.Place.{ring_of};
ghost use Rattle.device_engine.specs.Goes.{publish_note as note_of};
ghost use Rattle.device_engine.specs.Publishing.{Publishes};

use crate::outcome::{NextWork, Outcome};
use actor_map::EntryNumbers;
use bus_core::{BusPort, Note, Step};
use cq_pair::{CqDevice, CqSeen};

/// Makes one operation of the publication that is under way in the completion queue of this number.
pub(crate) fn publish<P: BusPort>(queue: &mut CqDevice, cq: u32, port: &mut P) -> Outcome
    requires busy { IsSome queue.old.task }
    requires port { CanServe (ring_of queue.old.place) (P.port port.old) }
    ensures { (e : BusEntry) × Appends (P.port port.old) (P.port port.new) e × Publishes cq queue.old queue.new e result }
{
    match queue.turn(port) {
        Step::Done(CqSeen::Published { .. }) => Outcome {
            comes: NextWork::Next,
            note: Some(publish_note(cq, queue.seen().a)),
        },
        Step::Done(CqSeen::Overrun { .. } | CqSeen::Lost) => Outcome {
            comes: NextWork::Next,
            note: None,
        },
        Step::More | Step::Gave(()) => Outcome {
            comes: NextWork::Same,
            note: None,
        },
    }
}

/// The note of a publication that saw this acknowledged index.
fn publish_note(cq: u32, seen: u64) -> Note
    ensures { result ≡ note_of cq seen }
{
    EntryNumbers::Publish { cq, seen }.note()
}
