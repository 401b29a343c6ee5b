//! Regions of memory, and what they allow.
ghost use Rattle.std.specs.Prelude.{◌≡◌};
ghost use Rattle.mkeys.specs.Region.{has_right, is_within};

use verbs_types::Rights;

/// One of the rights in `Rights`: the use of memory that a key is asked for.
#[derive(Clone, Copy, Debug, PartialEq, Eq)]
pub enum Right {
    LocalRead,
    LocalWrite,
    RemoteRead,
    RemoteWrite,
    Atomic,
}

/// A region of memory that has a key, with what a memory key context says of it (Programmer's Reference Manual).
#[derive(Clone, Copy, Debug, PartialEq, Eq)]
pub struct KeyRegion {
    /// The number of its protection domain.
    pub pd: u32,
    /// The address of its first byte.
    pub start: u64,
    /// How many bytes it has.
    pub len: u64,
    pub rights: Rights,
    /// The low 8 bits of its key.
    pub variant: u8,
}

impl Right {
    /// Whether it is one of these rights.
    pub(crate) fn is_in(self, rights: Rights) -> bool
        ensures { result ≡ has_right rights self }
    {
        match self {
            Right::LocalRead => rights.local_read,
            Right::LocalWrite => rights.local_write,
            Right::RemoteRead => rights.remote_read,
            Right::RemoteWrite => rights.remote_write,
            Right::Atomic => rights.atomic,
        }
    }
}

impl KeyRegion {
    /// Whether `len` bytes from `addr` on lie in the region. No sum is made, so none can wrap.
    pub(crate) fn contains(&self, addr: u64, len: u64) -> bool
        ensures { result ≡ is_within self.now addr len }
    {
        self.start <= addr && len <= self.len && addr - self.start <= self.len - len
    }
}
