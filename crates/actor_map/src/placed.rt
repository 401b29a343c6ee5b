//! Objects that are placed one after another.
ghost use Rattle.std.specs.Prelude.{◌≡◌, ◌≤◌, ◌+◌, ◌^◌, ◌∷◌, [], All, OnOk, map};
ghost use Rattle.std.specs.List.{sum_by};
ghost use Rattle.actor_map.specs.Limits.{IsEqSize, IsCqSize, IsQpSize};
ghost use Rattle.actor_map.specs.Places.{Places};
ghost use Rattle.actor_map.specs.Sizes as sizes;

use crate::sizes::{cq_words, eq_words, qp_words};
use std::alloc::AllocFailed;
use verbs_types::{CqLine, EqLine, QpLine};

/// The objects placed so far.
#[derive(Drop)]
pub(crate) struct Placed {
    /// The first word of each.
    pub first_words: Vec<u32>,
    /// The word behind the last one.
    pub next: u64,
}

impl Placed {
    /// Places an object of `size` words.
    fn place(&mut self, size: u64) -> Result<(), AllocFailed<u32>>
        requires room { self.old.next + size ≤ 2 ^ 20 }
        ensures { OnOk result (Places self.old self.new (size ∷ [])) }
    {
        self.first_words.push(self.next as u32)?;
        self.next += size;
        Ok(())
    }

    pub fn place_eqs(&mut self, lines: &[EqLine]) -> Result<(), AllocFailed<u32>>
        requires limits { All IsEqSize lines.now }
        requires room { self.old.next + sum_by sizes.eq_words lines.now ≤ 2 ^ 20 }
        ensures { OnOk result (Places self.old self.new (map sizes.eq_words lines.now)) }
    {
        for line in lines {
            self.place(eq_words(line))?;
        }
        Ok(())
    }

    pub fn place_cqs(&mut self, lines: &[CqLine]) -> Result<(), AllocFailed<u32>>
        requires limits { All IsCqSize lines.now }
        requires room { self.old.next + sum_by sizes.cq_words lines.now ≤ 2 ^ 20 }
        ensures { OnOk result (Places self.old self.new (map sizes.cq_words lines.now)) }
    {
        for line in lines {
            self.place(cq_words(line))?;
        }
        Ok(())
    }

    pub fn place_qps(&mut self, lines: &[QpLine]) -> Result<(), AllocFailed<u32>>
        requires limits { All IsQpSize lines.now }
        requires room { self.old.next + sum_by sizes.qp_words lines.now ≤ 2 ^ 20 }
        ensures { OnOk result (Places self.old self.new (map sizes.qp_words lines.now)) }
    {
        for line in lines {
            self.place(qp_words(line))?;
        }
        Ok(())
    }
}
