//! Which lines have a form that is built.
ghost use Rattle.std.specs.Prelude.{◌≡◌};
ghost use Rattle.std.specs.List.{list_any};
ghost use Rattle.scenario_text.specs.Built as built;
ghost use Rattle.scenario_text.specs.Keywords.{keyword_in};
ghost use Rattle.scenario_text.specs.Segments.{is_later};
ghost use Rattle.scenario_text.specs.Sofar.{view_of};
ghost use Rattle.scenario_text.specs.Text.{split};

use crate::keyword::{Keyword, is_later_operation, is_later_word};
use crate::parts::{Parts, SPACE, part};
use crate::segment;
use crate::sofar::{Place, Sofar};

impl Sofar {
    /// The line that begins with this word where the next line stands.
    pub fn keyword(&self, word: &[u8]) -> Option<Keyword>
        ensures { result ≡ keyword_in (view_of self.now).place word.now }
    {
        match (self.place, Keyword::of(word)) {
            (Place::InRecv(_), Some(Keyword::Item)) => Some(Keyword::Receive),
            (_, keyword) => keyword,
        }
    }

    /// Whether the line has a form that is built.
    pub fn is_built(&self, line: &[u8]) -> bool
        ensures { result ≡ built.is_built (view_of self.now) (split 32 line.now) }
    {
        let word = part(line, SPACE, 0);
        match self.keyword(word) {
            Some(Keyword::Qp) => !part(line, SPACE, 6).starts_with(b"srq:"),
            Some(Keyword::Item) => self.is_built_item(part(line, SPACE, 2)),
            Some(Keyword::Receive) => self.has_room() && !has_later_segments(line),
            Some(_) => true,
            None => !is_later_word(word),
        }
    }

    /// Whether a request with this operation is built where the next line stands.
    fn is_built_item(&self, operation: &[u8]) -> bool
        ensures { result ≡ built.is_built_item (view_of self.now) operation.now }
    {
        match self.place {
            Place::InPost(_) => !is_later_operation(operation) && self.has_room(),
            _ => true,
        }
    }
}

/// Whether a segment of a receive is of a form that is not built yet.
fn has_later_segments(line: &[u8]) -> bool
    ensures { result ≡ built.has_later_segments (split 32 line.now) }
{
    any_later(segment::fields(line))
}

fn any_later(mut fields: Parts) -> bool
    ensures { result ≡ list_any is_later fields.entry.left }
{
    while let Some(field) = fields.next_part() {
        if segment::is_later(field) {
            return true;
        }
    }
    false
}
