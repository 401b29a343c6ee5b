//! What a run keeps of its turns.
ghost use Rattle.std.specs.Prelude.{◌≡◌, ◌<◌, ◌≤◌, [], length, vec_capacity, IfOk};
ghost use Rattle.world_core.specs.Log.{with_mark, with_note, with_turn};

use bus_core::Note;
use noted_history::Noted;
use std::alloc::Global;
use std::marker::Model;
use verbs_types::NoMemory;

/// The actor of each turn, which operations stand for an entry of the history, and the notes of those, with room for
/// a number of turns. Memory is touched only for what is kept.
#[derive(Drop)]
pub(crate) struct Log {
    turns: Vec<u8>,
    marks: Vec<bool>,
    notes: Vec<Noted>,
    /// How many turns there is room for.
    most: usize,
}

impl Model for Log {
    ghost use Rattle.world_core.specs.Log.{LogView};

    ghost Value = { LogView };

    ghost use Rattle.world_core.specs.LogInside.{log_view, IsLog};

    ghost view = { log_view };

    ghost invariant = { IsLog };
}

impl Log {
    /// Before the first turn, with room for `most` turns.
    pub fn new(alloc: Global, most: usize) -> Result<Log, NoMemory>
        ensures { IfOk result (λ log. log ≡ record { turns = []; marks = []; notes = []; capacity = most }) }
    {
        Ok(Log {
            turns: room_for(alloc, most)?,
            marks: room_for(alloc, most)?,
            notes: room_for(alloc, most)?,
            most,
        })
    }

    /// Keeps that a turn of this actor made no operation.
    pub fn pass(&mut self, actor: u8)
        requires { length self.old.turns < self.old.capacity }
        ensures { self.new ≡ record self.old { turns = with_turn self.old.turns actor } }
    {
        self.turns.push_reserved(actor);
    }

    /// Keeps that a turn of this actor made an operation, with its note where it stands for an entry.
    pub fn keep(&mut self, actor: u8, note: Option<Note>)
        requires { length self.old.turns < self.old.capacity }
        ensures { self.new ≡ record self.old { turns = with_turn self.old.turns actor; marks = with_mark self.old.marks note; notes = with_note self.old.notes actor note } }
    {
        self.turns.push_reserved(actor);
        self.marks.push_reserved(note.is_some());
        if let Some(note) = note {
            self.notes.push_reserved(Noted { actor, note });
        }
    }

    /// Of each operation, whether it stands for an entry. It does not allocate.
    pub fn into_marks(self) -> Vec<bool>
        ensures { result.items ≡ self.marks }
    {
        self.marks
    }

    /// The notes, in order.
    pub fn notes(&self) -> &[Noted]
        ensures { result.now ≡ self.now.notes }
    {
        self.notes.as_slice()
    }
}

/// Room for `count` values.
fn room_for<T>(alloc: Global, count: usize) -> Result<Vec<T>, NoMemory>
    ensures none { IfOk result (λ values. values.items ≡ []) }
    ensures room { IfOk result (λ values. count ≤ vec_capacity values) }
{
    match Vec::with_capacity(alloc, count) {
        Ok(values) => Ok(values),
        Err(_) => Err(NoMemory),
    }
}
