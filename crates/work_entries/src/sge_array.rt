//! Scatter/gather entries in fixed size.

use std::marker::Model;
use verbs_types::Sge;

/// Up to eight scatter/gather entries, which contracts see as a list. It does not allocate.
#[derive(Clone, Copy, Debug, PartialEq, Eq)]
pub struct SgeArray {
    count: u32,
    items: [Sge; 8],
}

impl Model for SgeArray {
    ghost use Rattle.std.specs.Prelude.{List, length, take};
    ghost use Rattle.verbs_types.specs.declared.request.Sge.{Sge};

    ghost Value = { List Sge };

    ghost use Rattle.work_entries.specs.Filled.{filled};
    ghost use Rattle.work_entries.specs.SgeArrayInside.{IsSgeArray, no_sge};

    ghost view = { λ a. take a.count a.items };

    ghost invariant = { IsSgeArray };

    ghost inverse = { λ sges. record { count = length sges; items = filled 8 no_sge sges } };
}

const NO_SGE: Sge = Sge {
    key: 0,
    addr: 0,
    len: 0,
};

impl SgeArray {
    ghost use Rattle.std.specs.Prelude.{◌≡◌, ◌<◌, ◌≤◌, ◌==◌, ◌++◌, [], ◌∷◌, length};

    /// No entry.
    pub fn new() -> SgeArray
        ensures { result ≡ [] }
    {
        SgeArray {
            count: 0,
            items: [NO_SGE; 8],
        }
    }

    /// Puts an entry behind the others.
    pub fn push(&mut self, sge: Sge)
        requires { length self.old < 8 }
        ensures { self.new ≡ self.old ++ sge ∷ [] }
    {
        self.items[self.count as usize] = sge;
        self.count += 1;
    }

    /// The entries, for reading.
    pub fn as_slice(&self) -> &[Sge]
        ensures { result.now ≡ self.now }
    {
        &self.items[..self.count as usize]
    }

    /// How many entries there are, at most eight.
    pub fn len(&self) -> usize
        ensures value { result ≡ length self.now }
        ensures most { result ≤ 8 }
    {
        self.count as usize
    }

    pub fn is_empty(&self) -> bool
        ensures { result ≡ (length self.now == 0) }
    {
        self.count == 0
    }
}
