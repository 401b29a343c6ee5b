//! The actors of a run, turn by turn.
ghost use Rattle.std.specs.Prelude.{◌≡◌, ◌<◌, ◌⊎◌, suc, length, Some, slice_get};
ghost use Rattle.thread_actor.specs.View.{ThreadView};
ghost use Rattle.world_core.specs.Run.{CanOperate, CanTurn, Turns, AdapterMoves, IsGoing, Operates, ThreadMoves, ThreadRests};
ghost use Rattle.world_core.specs.RunInside.{run_view};

use crate::log::Log;
use actor_map::Actor;
use bus_core::{Note, PlainBus};
use device_engine::Device;
use thread_actor::ThreadActor;
use verbs_types::ADAPTER;

/// The adapter and the threads of a scenario over the words that they share, between two turns.
#[derive(Drop)]
pub(crate) struct Run {
    pub bus: PlainBus,
    pub adapter: Device,
    /// The first is thread 1.
    pub threads: Vec<ThreadActor>,
    /// What each turn made.
    pub log: Log,
}

impl Run {
    /// A turn of the adapter or of a thread: one operation, or none of a thread that has ended.
    pub fn turn(&mut self, actor: u8)
        requires { CanTurn (run_view self.old) actor }
        ensures { Turns (run_view self.old) (run_view self.new) actor }
    {
        if actor == ADAPTER {
            self.turn_of_adapter();
        } else {
            self.turn_of_thread(actor - 1);
        }
    }

    fn turn_of_adapter(&mut self)
        requires { CanTurn (run_view self.old) 0 }
        ensures { AdapterMoves (run_view self.old) (run_view self.new) }
    {
        self.bus.set_actor(ADAPTER);
        let note = self.adapter.turn(&mut self.bus);
        self.log.keep(ADAPTER, note);
    }

    /// A turn of the thread at a place.
    fn turn_of_thread(&mut self, place: u8)
        requires { CanTurn (run_view self.old) (suc place) }
        ensures { ThreadMoves (run_view self.old) (run_view self.new) place ⊎ ThreadRests (run_view self.old) (run_view self.new) place }
    {
        if has_ended(self.threads.as_slice(), place as usize) {
            self.log.pass(place + 1);
        } else {
            self.operation_of_thread(place);
        }
    }

    /// The next operation of the thread at a place.
    fn operation_of_thread(&mut self, place: u8)
        requires can { CanTurn (run_view self.old) (suc place) }
        requires going { IsGoing self.old.threads.items place }
        ensures { ThreadMoves (run_view self.old) (run_view self.new) place }
    {
        let actor = place + 1;
        self.bus.set_actor(actor);
        let note = operation_at(self.threads.as_mut_slice(), place as usize, &mut self.bus);
        self.log.keep(actor, note);
    }
}

/// Whether the thread at a place has ended.
fn has_ended(threads: &[ThreadActor], place: usize) -> bool
    requires { place < length threads.now }
    ensures { (thread : ThreadView) × (slice_get threads.now place ≡ Some thread) × (result ≡ thread.ended) }
{
    threads[place].ended()
}

/// The next operation of the thread at a place.
fn operation_at(threads: &mut [ThreadActor], place: usize, bus: &mut PlainBus) -> Option<Note>
    requires can { CanOperate threads.old place bus.old }
    ensures { Operates threads.old threads.new place bus.old bus.new result }
{
    threads[place].turn(bus)
}
