//! Who makes operations, turn by turn.
ghost use Rattle.std.specs.Prelude.{◌≡◌, ◌≤◌, ℕ, Bool, false, Option};
ghost use Rattle.bus_core.specs.declared.operation.BusEntry.{BusEntry};
ghost use Rattle.bus_core.specs.declared.turn.Note.{Note};
ghost use Rattle.bus_core.specs.Port.{HasRoom, Appends};

use bus_core::{BusPort, Note};

/// Who makes operations on a bus, one a turn: a thread of a scenario, the adapter, or the one that opens and
/// closes the adapter.
pub trait Actor {
    // whether it has made its last operation
    ghost has_ended: { Self → Bool };

    // how many calls its program has, and how many of them are finished
    ghost program: { Self → ℕ };

    ghost finished: { Self → ℕ };

    // its addresses are below this one
    ghost words: { Self → ℕ };

    // Its counts and indices are below 2^61, and the next count of its stores into a data cell is below 2^48.
    ghost IsSmall: { Self → Type 0 };

    // What a turn of it is: the actor before and after, its operation, and the note of it.
    ghost Turn: { Self → Self → BusEntry → Option Note → Type 0 };

    /// Whether it has made its last operation.
    fn ended(&self) -> bool
        ensures { result ≡ has_ended self.now };

    /// How many calls its program has: 0 for an actor that has none.
    fn calls(&self) -> u32
        ensures { result ≡ program self.now };

    /// How many calls of its program are finished.
    fn answered(&self) -> u32
        ensures finished { result ≡ finished self.now }
        ensures few { result ≤ program self.now };

    /// Makes its next operation, and gives the note of it where it stands for an entry of the history.
    fn turn<P: BusPort>(&mut self, port: &mut P) -> Option<Note>
        requires going { has_ended self.old ≡ false }
        requires small { IsSmall self.old }
        requires inside { words self.old ≤ (P.port port.old).words }
        requires room { HasRoom (P.port port.old).room }
        ensures operation { (e : BusEntry) × Appends (P.port port.old) (P.port port.new) e × Turn self.old self.new e result }
        ensures program { program self.new ≡ program self.old }
        ensures finished { finished self.old ≤ finished self.new };
}
