//! The map of the objects of a scenario.
ghost use Rattle.std.specs.Prelude.{◌≡◌, ◌≤◌, ◌^◌, OnOk, IfOk, IfErr};
ghost use Rattle.actor_map.specs.Sizes.{words_of};
ghost use Rattle.actor_map.specs.Map.{IsMapped, first_word, map_of};
ghost use Rattle.actor_map.specs.Faults.{Refuses};

use crate::kind::ObjectKind;
use crate::placed::Placed;
use crate::sizes::{FIRST_OBJECT, words};
use std::alloc::{AllocFailed, Global};
use std::marker::Model;
use thiserror::Error;
use verbs_types::{Declared, FIRST_QP};

/// The most words that a map may have.
const MAX_WORDS: u64 = 1 << 20;

/// Why there is no map.
#[derive(Clone, Copy, Debug, PartialEq, Eq, Error)]
pub enum MapFault {
    /// The objects need this number of words, which is more than 2^20.
    #[error("the objects need {words} words")]
    TooManyWords { words: u64 },
    #[error("no memory")]
    NoMemory,
}

impl<T: Drop> From<AllocFailed<T>> for MapFault {
    ghost use Rattle.std.specs.Prelude.{◌≡◌};
    ghost use Rattle.actor_map.specs.declared.map.MapFault.TheVariants.{NoMemory};

    ghost from_gives = { λ _ fault. fault ≡ NoMemory };

    fn from(_error: AllocFailed<T>) -> Self {
        MapFault::NoMemory
    }
}

/// Where each object of a scenario begins.
#[derive(Debug, Drop)]
pub struct AddressMap {
    pub(crate) first_words: Vec<u32>,
    pub(crate) eqs: usize,
    pub(crate) cqs: usize,
}

impl Model for AddressMap {
    ghost use Rattle.actor_map.specs.Map.{MapView};

    ghost Value = { MapView };

    ghost view = { λ m. record { first_words = m.first_words.items; eqs = m.eqs; cqs = m.cqs } };
}

impl AddressMap {
    /// The map of these objects, which stand one after another: event queues, completion queues and queue pairs,
    /// each kind in declared order.
    pub fn build(alloc: Global, declared: &Declared) -> Result<AddressMap, MapFault>
        ensures found { IfOk result (λ m. m ≡ map_of declared.now) }
        ensures fits { OnOk result (words_of declared.now ≤ 2 ^ 20) }
        ensures refused { IfErr result (Refuses declared.now) }
    {
        let words = words(declared);
        if words > MAX_WORDS {
            return Err(MapFault::TooManyWords { words });
        }
        let lines = declared.lines();
        let mut placed = Placed {
            first_words: Vec::new(alloc),
            next: FIRST_OBJECT,
        };
        placed.place_eqs(lines.eqs.as_slice())?;
        placed.place_cqs(lines.cqs.as_slice())?;
        placed.place_qps(lines.qps.as_slice())?;
        Ok(AddressMap {
            first_words: placed.first_words,
            eqs: lines.eqs.len(),
            cqs: lines.cqs.len(),
        })
    }

    /// The first word of an object.
    pub fn first(&self, kind: ObjectKind, number: u32) -> u32
        requires declared { IsMapped self.now kind number }
        ensures { result ≡ first_word self.now kind number }
    {
        let place = match kind {
            ObjectKind::Eq => number as usize,
            ObjectKind::Cq => self.eqs + number as usize,
            ObjectKind::Qp => self.eqs + self.cqs + (number - FIRST_QP) as usize,
        };
        self.first_words[place]
    }
}
