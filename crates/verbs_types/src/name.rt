//! Names of objects and threads.
ghost use Rattle.std.specs.Prelude.{◌≡◌, ◌↔◌, IsTrue, IfOk, IsErrOf, false};
ghost use Rattle.std.specs.List.{list_all};
ghost use Rattle.verbs_types.specs.Names as names;

use std::alloc::Global;
use std::marker::Model;
use thiserror::Error;

/// The name of an object or a thread: 1 to 16 of `a` to `z`, `0` to `9` and `_`, the first a letter.
#[derive(Clone, Debug, Drop)]
pub struct Name {
    text: Vec<u8>,
}

impl Model for Name {
    ghost use Rattle.std.specs.Prelude.{List, ℕ, IsTrue};

    ghost Value = { List ℕ };

    ghost use Rattle.verbs_types.specs.Names.{is_name};

    ghost view = { λ n. n.text.items };

    ghost invariant = { λ n. IsTrue (is_name n.text.items) };
}

/// Why a text gave no name.
#[derive(Debug, Drop, PartialEq, Eq, Error)]
pub enum NameFault {
    #[error("not a name")]
    NotAName,
    #[error("out of memory")]
    NoMemory,
}

impl Name {
    /// The name with this text.
    pub fn new(alloc: Global, text: &[u8]) -> Result<Name, NameFault>
        ensures text { IfOk result (λ n. n ≡ text.now) }
        ensures no_name { IsErrOf result NameFault.NotAName ↔ (names.is_name text.now ≡ false) }
    {
        if !is_name(text) {
            return Err(NameFault::NotAName);
        }
        match Vec::from_slice(alloc, text) {
            Ok(text) => Ok(Name { text }),
            Err(_) => Err(NameFault::NoMemory),
        }
    }

    /// The bytes of the name.
    pub fn as_bytes(&self) -> &[u8]
        ensures text { result.now ≡ self.now }
        ensures name { IsTrue (names.is_name self.now) }
    {
        self.text.as_slice()
    }
}

/// Whether a text is a name.
pub fn is_name(text: &[u8]) -> bool
    ensures { result ≡ names.is_name text.now }
{
    match text.first() {
        Some(first) => first.is_ascii_lowercase() && text.len() <= 16 && has_name_bytes(text),
        None => false,
    }
}

fn has_name_bytes(text: &[u8]) -> bool
    ensures { result ≡ list_all names.is_name_byte text.now }
{
    text.iter().all(|byte| is_name_byte(*byte))
}

fn is_name_byte(byte: u8) -> bool
    ensures { result ≡ names.is_name_byte byte }
{
    byte.is_ascii_lowercase() || byte.is_ascii_digit() || byte == b'_'
}
