//! The parts of bytes between separators: the lines of a text, the fields of a line.
ghost use Rattle.std.specs.Prelude.{◌≡◌, ◌∷◌, [], Some, position, ◌==◌, ◌<◌, MatchOption, length};
ghost use Rattle.std.specs.Option.{option_copied};
ghost use Rattle.scenario_text.specs.Text.{split, parts, part_at};

use std::marker::Model;

/// What stands between two lines.
pub const LINE_END: u8 = b'\n';

/// What stands between two fields of a line.
pub const SPACE: u8 = b' ';

/// The parts that are left, from the first on. One separator stands between two parts.
#[derive(Drop)]
pub struct Parts<'a> {
    separator: u8,
    rest: Option<&'a [u8]>,
}

impl<'a> Model for Parts<'a> {
    ghost use Rattle.std.specs.Prelude.{List, ℕ};
    ghost use Rattle.std.specs.Option.{option_copied};
    ghost use Rattle.scenario_text.specs.Text.{Parting, parts};

    ghost Value = { Parting };

    ghost view = { λ p. record { separator = p.separator; left = parts p.separator (option_copied p.rest) } };
}

impl<'a> Parts<'a> {
    /// The parts of these bytes.
    pub fn of(bytes: &'a [u8], separator: u8) -> Parts<'a>
        ensures { result ≡ record { separator = separator; left = split separator bytes.now } }
    {
        Parts {
            separator,
            rest: Some(bytes),
        }
    }

    /// Takes the next part, if one is left.
    pub fn next_part(&mut self) -> Option<&'a [u8]>
        ensures same { self.new.separator ≡ self.old.separator }
        ensures next { MatchOption result ((self.old.left ≡ []) × (self.new.left ≡ [])) (λ part. self.old.left ≡ part.now ∷ self.new.left) }
    {
        let (part, rest) = cut(self.rest?, self.separator);
        self.rest = rest;
        Some(part)
    }
}

/// The bytes before the first separator, and those after it, if there is one.
pub fn cut(bytes: &[u8], separator: u8) -> (&[u8], Option<&[u8]>)
    ensures parts { parts separator (Some bytes.now) ≡ result.0.now ∷ parts separator (option_copied result.1) }
    ensures shorter { MatchOption result.1 (result.0.now ≡ bytes.now) (λ rest. length rest.now < length bytes.now) }
{
    match position_of(bytes, separator) {
        Some(end) => (&bytes[..end], Some(&bytes[end + 1..])),
        None => (bytes, None),
    }
}

fn position_of(bytes: &[u8], wanted: u8) -> Option<usize>
    ensures { result ≡ position (λ b. b == wanted) bytes.now }
{
    bytes.iter().position(|byte| *byte == wanted)
}

/// The part at a place, or no bytes where there is none.
pub fn part(bytes: &[u8], separator: u8, place: usize) -> &[u8]
    ensures { result.now ≡ part_at (split separator bytes.now) place }
{
    let mut left = Parts::of(bytes, separator);
    for passed in 0..place {
        left.next_part();
    }
    left.next_part().unwrap_or(b"")
}

/// Whether there are `number` parts.
pub fn has_parts(bytes: &[u8], separator: u8, number: usize) -> bool
    ensures { result ≡ (length (split separator bytes.now) == number) }
{
    let mut left = Parts::of(bytes, separator);
    for passed in 0..number {
        if left.next_part().is_none() {
            return false;
        }
    }
    left.next_part().is_none()
}
