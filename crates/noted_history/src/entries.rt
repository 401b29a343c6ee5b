//! The history that the notes of a run tell.
ghost use Rattle.std.specs.Prelude.{◌≡◌, List, IfOk};
ghost use Rattle.actor_map.specs.Notes.{Told, entries_of};
ghost use Rattle.verbs_model.specs.Tables.{state_of};
ghost use Rattle.noted_history.specs.OfNotes.{HasNotes};

use crate::log::Noted;
use crate::teller::Teller;
use std::alloc::Global;
use verbs_model::Abstract;
use verbs_types::{Call, Entry, NoMemory, Sequence};

/// The entries of these notes, in order, from this state on. A note tells an entry by its numbers; the lists of the
/// entry are those of the thread's call, of the completions that no poll took, and of what the adapter owes.
///
/// `NoMemory` says that memory ran out, and nothing else.
pub fn history_of(
    alloc: Global,
    first: Abstract,
    programs: &[Sequence<Call>],
    notes: &[Noted],
) -> Result<Vec<Entry>, NoMemory>
    requires told { (h : List Told) × HasNotes (state_of first) programs.now notes.now h }
    ensures told { (h : List Told) → HasNotes (state_of first) programs.now notes.now h → IfOk result (λ v. v.items ≡ entries_of h) }
{
    let mut teller = Teller::new(alloc, first, programs.len())?;
    let mut history = Vec::new(alloc);
    for noted in notes {
        let entry = teller.entry(alloc, programs, noted.actor, noted.note)?;
        history.push(entry).map_err(|_| NoMemory)?;
    }
    Ok(history)
}
