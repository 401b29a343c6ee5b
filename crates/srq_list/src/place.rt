//! Where a shared receive queue lies, and what its words say.
ghost use Rattle.std.specs.Prelude.{◌≡◌, ◌<◌, ◌-◌, true};
ghost use Rattle.srq_list.specs.Place as words;

/// Where a shared receive queue lies, in words of the bus: its `2^log` slots of `stride` words, an id
/// word for each slot, the word of the doorbell record and the tail word. A slot is a next segment of
/// two words and then a receive's entry of the other `stride - 2`. Slots and record are the Programmer's
/// Reference Manual's; the ids are the host's own, as in the rdma-core mlx5 provider, whose tail lies
/// here in a word that the thread that posts and the poller share; the places on the bus are this
/// project's own.
#[derive(Clone, Copy, Debug, PartialEq, Eq)]
pub struct SrqPlace {
    pub base: u32,
    pub log: u32,
    pub stride: u32,
    pub ids: u32,
    pub tail: u32,
    pub dbr: u32,
}

impl SrqPlace {
    /// The number of slots.
    pub fn size(&self) -> u32
        requires { words.IsPlace self.now }
        ensures size { result ≡ words.size self.now }
        ensures some { 0 < result }
    {
        1 << self.log
    }

    /// How many receives can be posted and not freed: one slot is always free.
    pub fn max_post(&self) -> u32
        requires { words.IsPlace self.now }
        ensures { result ≡ words.max_post self.now }
    {
        self.size() - 1
    }

    /// How many words a receive's entry has.
    pub fn entry_words(&self) -> u32
        requires { words.IsPlace self.now }
        ensures { result ≡ words.entry_words self.now }
    {
        self.stride - 2
    }

    /// The slot that a number names: slots count from 0, modulo their number.
    pub fn slot_of(&self, number: u64) -> u16
        requires { words.IsPlace self.now }
        ensures { result ≡ words.slot_of self.now number }
    {
        (number % self.size() as u64) as u16
    }

    /// The address of the word of a slot that has the index of the next one.
    pub fn next_at(&self, slot: u16) -> u32
        requires { words.IsPlace self.now }
        ensures at { result ≡ words.next_at self.now slot }
        ensures below { result < self.now.ids }
        ensures inside { words.touches self.now result ≡ true }
    {
        self.base + self.stride * self.slot_of(slot as u64) as u32
    }

    /// The address of a word of the receive's entry of a slot.
    pub fn entry_at(&self, slot: u16, word: u32) -> u32
        requires place { words.IsPlace self.now }
        requires word { word < words.entry_words self.now }
        ensures at { result ≡ words.entry_at self.now slot word }
        ensures below { result < self.now.ids }
        ensures inside { words.touches self.now result ≡ true }
    {
        self.base + self.stride * self.slot_of(slot as u64) as u32 + 2 + word
    }

    /// The address of the id word of a slot.
    pub fn id_at(&self, slot: u16) -> u32
        requires { words.IsPlace self.now }
        ensures at { result ≡ words.id_at self.now slot }
        ensures below { result < self.now.dbr }
        ensures inside { words.touches self.now result ≡ true }
    {
        self.ids + self.slot_of(slot as u64) as u32
    }

    /// The slot whose index a next segment has in this first word.
    pub fn next_of(&self, word: u64) -> u16
        requires { words.IsPlace self.now }
        ensures { result ≡ words.next_of self.now word }
    {
        self.slot_of((word >> 32) & 0xffff)
    }
}

/// The first word of a next segment with this index: its bytes 2 and 3.
pub(crate) fn link_word(slot: u16) -> u64
    ensures { result ≡ words.link_word slot }
{
    (slot as u64) << 32
}

/// The record of `count` receives, where the queue's first count is `start`: the low 16 bits of the sum.
pub(crate) fn record_of(start: u64, count: u64) -> u16
    ensures { result ≡ words.record_of start count }
{
    (start.wrapping_add(count) & 0xffff) as u16
}

/// How many receives a record word shows beyond those of an earlier record.
pub(crate) fn shown(earlier: u16, word: u64) -> u32
    ensures { result ≡ words.shown earlier word }
{
    ((word & 0xffff) as u32 + 0x1_0000 - earlier as u32) & 0xffff
}
