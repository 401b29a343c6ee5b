//! The names of actors, made for lines.
ghost use Rattle.std.specs.Prelude.{◌≡◌, ◌<◌, [], length, slice_index_or, IfOk};
ghost use Rattle.transcript_text.specs.ActorNames as words;
ghost use Rattle.transcript_text.specs.ActorNames.{place_of};

use crate::line::NameEnd;
use std::alloc::{AllocError, Global};
use verbs_types::{CONTROL, Lines, NoMemory};

/// The names of all actors.
pub(crate) fn actor_names(alloc: Global, lines: &Lines) -> Result<Vec<NameEnd>, NoMemory>
    ensures { IfOk result (λ names. names.items ≡ words.actor_names lines.now) }
{
    match names_of(alloc, lines) {
        Ok(names) => Ok(names),
        Err(_) => Err(NoMemory),
    }
}

fn names_of(alloc: Global, lines: &Lines) -> Result<Vec<NameEnd>, AllocError>
    ensures { IfOk result (λ names. names.items ≡ words.actor_names lines.now) }
{
    let mut names = Vec::with_capacity(alloc, lines.threads.len().saturating_add(2))?;
    names.push(NameEnd::new(b"ctl"))?;
    names.push(NameEnd::new(b"dev"))?;
    for name in lines.threads.as_slice() {
        names.push(NameEnd::new(name.as_bytes()))?;
    }
    Ok(names)
}

/// The name of an actor among those of all.
pub(crate) fn name_of(names: &[NameEnd], actor: u8) -> &NameEnd
    requires { place_of actor < length names.now }
    ensures { result.now ≡ slice_index_or names.now (place_of actor) [] }
{
    match actor {
        CONTROL => &names[0],
        other => &names[other as usize + 1],
    }
}
