//! Which places are free, in two levels of bits.
ghost use Rattle.std.specs.Prelude.{◌≡◌, ◌<◌, ℕ, MatchOption, true, false};
ghost use Rattle.mkeys.specs.FreePlaces as free;

use crate::table::PLACES;
use std::marker::Model;

/// The free ones of `PLACES` places: a bit for each place, and for each word of these bits one more that says
/// whether the word has any. The lowest free place is found by two looks.
#[derive(Drop)]
pub(crate) struct FreePlaces {
    words: [u64; 64],
    summary: u64,
}

impl Model for FreePlaces {
    ghost use Rattle.std.specs.Prelude.{List, ℕ};

    ghost Value = { List ℕ };

    ghost use Rattle.mkeys.specs.FreePlaces.{IsSummary};

    ghost view = { λ f. f.words };

    ghost invariant = { λ f. IsSummary f.words f.summary };
}

impl FreePlaces {
    /// All places, free.
    pub(crate) fn new() -> FreePlaces
        ensures { (place : ℕ) → place < PLACES → free.is_free result place ≡ true }
    {
        FreePlaces {
            words: [u64::MAX; 64],
            summary: u64::MAX,
        }
    }

    /// The lowest free place.
    pub(crate) fn lowest(&self) -> Option<usize>
        ensures { MatchOption result (free.NoneFree self.now) (free.IsLowest self.now) }
    {
        if self.summary == 0 {
            return None;
        }
        let word = self.summary.trailing_zeros();
        let bit = self.words[word as usize].trailing_zeros();
        Some((64 * word + bit) as usize)
    }

    /// The place is no longer free.
    pub(crate) fn take(&mut self, place: usize)
        requires { place < PLACES }
        ensures { free.Turns self.old self.new place false }
    {
        let word = place / 64;
        let left = self.words[word] & !(1 << (place % 64));
        self.words[word] = left;
        if left == 0 {
            self.summary &= !(1 << word);
        }
    }

    /// The place is free again.
    pub(crate) fn give_back(&mut self, place: usize)
        requires { place < PLACES }
        ensures { free.Turns self.old self.new place true }
    {
        let word = place / 64;
        self.words[word] |= 1 << (place % 64);
        self.summary |= 1 << word;
    }
}
