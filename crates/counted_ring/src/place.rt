//! Where a counted queue lies.
ghost use Rattle.std.specs.Prelude.{◌≡◌, ◌<◌, ◌≤◌, ◌*◌, ◌^◌, true};
ghost use Rattle.counted_ring.specs.Device.{reach};
ghost use Rattle.counted_ring.specs.Place as words;

use work_entries::units_in;

/// Where a send or a receive queue lies, in words of the bus: its ring of `blocks` blocks of `stride`
/// words, an id word and a head word for each block, the tail word, the word of the doorbell record
/// and, for a send queue, the register. At most `max_post` requests are posted and not retired. The
/// blocks, the record and the register are the Programmer's Reference Manual's; the ids, the head
/// words and the tail are the host's own, as in the rdma-core mlx5 provider; the places on the bus are
/// this project's own.
///
/// A block of a send queue has 8 words, and an entry takes one to four. A receive takes one block, and
/// its queue has no register and no head words.
#[derive(Clone, Copy, Debug, PartialEq, Eq)]
pub struct WqPlace {
    /// The address of the ring's first word.
    pub ring: u32,
    /// How many blocks the ring has: a number that divides 2^16, at most 2^15.
    pub blocks: u32,
    /// How many words a block has.
    pub stride: u32,
    /// The address of the id word of block 0; the others follow, one a block.
    pub ids: u32,
    /// The address of the head word of block 0; the others follow, one a block. A receive queue has none,
    /// and nothing is read here.
    pub heads: u32,
    /// The address of the tail word, a whole count of requests that are retired.
    pub tail: u32,
    /// The address of the queue's own word of the doorbell record, the low 16 bits of a block index.
    pub dbr: u32,
    /// The address of the register; a receive queue has none.
    pub reg: Option<u32>,
    /// How many requests may be posted and not retired.
    pub max_post: u32,
}

impl WqPlace {
    /// Whether it is a send queue.
    pub fn is_send(&self) -> bool
        ensures { result ≡ words.is_send self.now }
    {
        self.reg.is_some()
    }

    /// The address of a word of the entry whose first block has this index.
    pub fn word_at(&self, index: u64, word: u32) -> u32
        requires place { words.IsPlace self.now }
        requires index { index < 2 ^ 62 }
        requires word { word < 32 }
        ensures at { result ≡ words.word_at self.now index word }
        ensures below { result < self.now.ids }
        ensures inside { words.touches self.now result ≡ true }
    {
        let slot = (index + (word / self.stride) as u64) % self.blocks as u64;
        self.ring + self.stride * slot as u32 + word % self.stride
    }

    /// The address of the id word of a block.
    pub fn id_at(&self, index: u64) -> u32
        requires { words.IsPlace self.now }
        ensures at { result ≡ words.id_at self.now index }
        ensures below { result < self.now.tail }
        ensures inside { words.touches self.now result ≡ true }
    {
        self.ids + (index % self.blocks as u64) as u32
    }

    /// The address of the head word of a block of a send queue.
    pub fn head_at(&self, index: u64) -> u32
        requires place { words.IsPlace self.now }
        requires send { words.is_send self.now ≡ true }
        ensures at { result ≡ words.head_at self.now index }
        ensures below { result < self.now.tail }
        ensures inside { words.touches self.now result ≡ true }
    {
        self.heads + (index % self.blocks as u64) as u32
    }

    /// How many blocks the entry of this first word takes.
    pub fn span(&self, first: u64) -> u32
        ensures span { result ≡ words.span self.now first }
        ensures some { 0 < result }
        ensures few { result ≤ words.most self.now }
    {
        if self.is_send() {
            unit_blocks(units_in(first))
        } else {
            1
        }
    }

    /// How many blocks of an entry of this first word there are, where `ready` blocks are.
    pub(crate) fn reach(&self, ready: u32, first: u64) -> u32
        requires { 0 < ready }
        ensures reach { result ≡ reach self.now ready first }
        ensures some { 0 < result }
        ensures ready { result ≤ ready }
        ensures few { result ≤ words.most self.now }
    {
        let span = self.span(first);
        if ready < span { ready } else { span }
    }
}

/// How many blocks `units` units of 16 bytes take.
fn unit_blocks(units: u64) -> u32
    ensures blocks { result ≡ words.unit_blocks units }
    ensures some { 0 < result }
    ensures few { result ≤ 4 }
{
    if units <= 4 {
        1
    } else if units <= 8 {
        2
    } else if units <= 12 {
        3
    } else {
        4
    }
}

/// How many requests were posted and not retired, by a tail word.
pub(crate) fn outstanding(head: u64, tail: u64) -> u64
    ensures { result ≡ words.outstanding head tail }
{
    head.wrapping_sub(tail)
}

/// How many blocks from this index on a record word shows.
pub(crate) fn shown(index: u64, word: u64) -> u32
    ensures shown { result ≡ words.shown index word }
    ensures few { result < 2 ^ 16 }
{
    (word.wrapping_sub(index) & 0xffff) as u32
}
