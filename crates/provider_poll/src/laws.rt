//! What holds of sides that poll, and of their notes.
ghost use Rattle.std.specs.Prelude.{ℕ};
ghost use Rattle.verbs_types.specs.declared.declaration.Lines.{Lines};
ghost use Rattle.provider_poll.specs.Fresh.{BeginsAs, LieWithin};
ghost use Rattle.provider_poll.specs.NotesFit.{NotesFit};

use actor_map::laws as map;

/// The note of a poll is that of an entry with as many completions.
pub fn notes_fit()
    ensures { NotesFit }
{}

/// A new side is at its rule's beginning.
pub fn begins()
    ensures { (d : Lines) (cq : ℕ) → BeginsAs d cq }
{}

/// The words of a declared side are words of its objects.
pub fn lies_within()
    ensures { LieWithin }
{
    map::whole();
    map::inside();
}
