//! What the names of a scenario stand for.
ghost use Rattle.std.specs.Prelude.{◌≡◌, ◌++◌, ◌∷◌, [], OnOk};
ghost use Rattle.scenario_text.specs.Naming.{meaning_of, number_as, number_named};

use crate::slot::Kind;
use indexmap::IndexMap;
use std::alloc::{AllocError, Global};
use std::marker::Model;
use verbs_types::Object;

/// What a name stands for.
#[derive(Clone, Copy, Debug, PartialEq, Eq)]
pub(crate) enum Meaning {
    /// No scenario may give the name, and none may use it.
    Taken,
    /// Who makes turns: 0 is the adapter, and the threads count from 1.
    Actor(u32),
    Object(Object),
}

impl Meaning {
    /// Its number, where it is of this kind.
    pub fn number_as(self, kind: Kind) -> Option<u32>
        ensures { result ≡ number_as kind self }
    {
        match (kind, self) {
            (Kind::Eq, Meaning::Object(Object::Eq(number)))
            | (Kind::Pd, Meaning::Object(Object::Pd(number)))
            | (Kind::Cq, Meaning::Object(Object::Cq(number)))
            | (Kind::Qp, Meaning::Object(Object::Qp(number)))
            | (Kind::Actor, Meaning::Actor(number)) => Some(number),
            _ => None,
        }
    }
}

/// Names, each with what it stands for.
#[derive(Drop)]
pub(crate) struct Names {
    meanings: IndexMap<Vec<u8>, Meaning>,
}

impl Model for Names {
    ghost use Rattle.std.specs.Prelude.{List, map};
    ghost use Rattle.scenario_text.specs.Naming.{Entry};

    ghost Value = { List Entry };

    ghost view = { λ n. map (λ e. record { name = e.0.items; meaning = e.1 }) n.meanings.entries };
}

impl Names {
    /// No names yet.
    pub fn new(alloc: Global) -> Names
        ensures { result ≡ [] }
    {
        Names {
            meanings: IndexMap::new(alloc),
        }
    }

    /// What the name stands for.
    pub fn find(&self, name: &[u8]) -> Option<Meaning>
        ensures { result ≡ meaning_of self.now name.now }
    {
        self.meanings.get(name).copied()
    }

    /// The number of the object of this kind, or of the actor, that has the name.
    pub fn number(&self, kind: Kind, name: &[u8]) -> Option<u32>
        ensures { result ≡ number_named self.now kind name.now }
    {
        self.find(name)?.number_as(kind)
    }

    /// Gives the name this meaning.
    pub fn give(&mut self, alloc: Global, name: &[u8], meaning: Meaning) -> Result<(), AllocError>
        requires new { meaning_of self.old name.now ≡ None }
        ensures given { OnOk result (self.new ≡ self.old ++ record { name = name.now; meaning = meaning } ∷ []) }
    {
        self.meanings
            .insert(Vec::from_slice(alloc, name)?, meaning)?;
        Ok(())
    }
}
