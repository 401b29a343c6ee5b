//! Inline data in fixed size.

use std::marker::Model;

/// Up to 60 bytes, which contracts see as a list. It does not allocate.
#[derive(Clone, Copy, Debug, PartialEq, Eq)]
pub struct InlineBytes {
    count: u8,
    bytes: [u8; 60],
}

impl Model for InlineBytes {
    ghost use Rattle.std.specs.Prelude.{ℕ, List, length, take};

    ghost Value = { List ℕ };

    ghost use Rattle.work_entries.specs.Filled.{filled};
    ghost use Rattle.work_entries.specs.InlineBytesInside.{AreInlineBytes};

    ghost view = { λ a. take a.count a.bytes };

    ghost invariant = { AreInlineBytes };

    ghost inverse = { λ bytes. record { count = length bytes; bytes = filled 60 0 bytes } };
}

impl InlineBytes {
    ghost use Rattle.std.specs.Prelude.{◌≡◌, ◌≤◌, ◌==◌, length};

    /// These bytes, at most 60.
    pub fn from_slice(bytes: &[u8]) -> InlineBytes
        requires { length bytes.now ≤ 60 }
        ensures { result ≡ bytes.now }
    {
        let mut array = [0; 60];
        array[..bytes.len()].copy_from_slice(bytes);
        InlineBytes {
            count: bytes.len() as u8,
            bytes: array,
        }
    }

    /// The bytes, for reading.
    pub fn as_slice(&self) -> &[u8]
        ensures { result.now ≡ self.now }
    {
        &self.bytes[..self.count as usize]
    }

    /// How many bytes there are, at most 60.
    pub fn len(&self) -> usize
        ensures value { result ≡ length self.now }
        ensures most { result ≤ 60 }
    {
        self.count as usize
    }

    pub fn is_empty(&self) -> bool
        ensures { result ≡ (length self.now == 0) }
    {
        self.count == 0
    }
}
