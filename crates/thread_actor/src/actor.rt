//! A thread as an actor.
ghost use Rattle.std.specs.Prelude.{◌≡◌, ◌≤◌, ◌^◌, IfOk};
ghost use Rattle.actor_map.specs.Map.{map_of};
ghost use Rattle.actor_map.specs.Sizes.{words_of};
ghost use Rattle.thread_actor.specs.Fresh.{CanRun, IsFresh};

use crate::thread::Thread;
use actor_map::{Actor, AddressMap};
use bus_core::{BusPort, Note};
use std::alloc::Global;
use std::marker::Model;
use verbs_types::{Call, Declared, NoMemory, Sequence};

/// A thread of a scenario.
#[derive(Drop)]
pub struct ThreadActor {
    thread: Thread,
}

impl Model for ThreadActor {
    ghost use Rattle.thread_actor.specs.View.{ThreadView};

    ghost Value = { ThreadView };

    ghost use Rattle.thread_actor.specs.Inside.{view_of};
    ghost use Rattle.thread_actor.specs.Stands.{IsThread};

    ghost view = { λ a. view_of a.thread };

    ghost invariant = { λ a. IsThread (view_of a.thread) };
}

impl ThreadActor {
    /// The thread of this number, 1 to 16, before the first of its calls.
    pub fn new(
        alloc: Global,
        d: &Declared,
        map: &AddressMap,
        number: u8,
        calls: Sequence<Call>,
    ) -> Result<ThreadActor, NoMemory>
        requires map { map.now ≡ map_of d.now }
        requires fits { words_of d.now ≤ 2 ^ 20 }
        requires run { CanRun d.now number calls }
        ensures { IfOk result (IsFresh d.now number calls) }
    {
        Ok(ThreadActor {
            thread: Thread::new(alloc, d, map, number, calls)?,
        })
    }
}

impl Actor for ThreadActor {
    ghost use Rattle.std.specs.Prelude.{length};
    ghost use Rattle.actor_map.specs.Sizes.{words_of};
    ghost use Rattle.thread_actor.specs.Small.{IsSmall};
    ghost use Rattle.thread_actor.specs.Turn.{ThreadTurn};

    ghost has_ended = { λ t. t.ended };

    ghost program = { λ t. length t.program };

    ghost finished = { λ t. t.finished };

    ghost words = { λ t. words_of t.lines };

    ghost IsSmall = { IsSmall };

    ghost Turn = { ThreadTurn };

    fn ended(&self) -> bool {
        self.thread.ended
    }

    fn calls(&self) -> u32 {
        self.thread.calls.len() as u32
    }

    fn answered(&self) -> u32 {
        self.thread.progress.finished as u32
    }

    fn turn<P: BusPort>(&mut self, port: &mut P) -> Option<Note> {
        self.thread.turn(port)
    }
}
