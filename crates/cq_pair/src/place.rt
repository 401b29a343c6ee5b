//! Where a completion queue lies.
ghost use Rattle.std.specs.Prelude.{◌≡◌};
ghost use Rattle.cq_pair.specs.Place as words;

use owner_ring::RingPlace;

/// Where a completion queue lies, in words of the bus: its two areas of `2^ceiling` entries of 8
/// words each, word 0 of its doorbell record, the arm register and the arm sequence number. `log`
/// is the log2 of its size. The record and the register are the Programmer's Reference Manual's, a
/// word for each 32 bits of the record; the places on the bus are this project's own.
///
/// A queue that is not resized lies in its first area. It stores its consumer index in the record's
/// word 0. The arm register, the sequence number and the record's word 1, which lies behind word 0,
/// belong to arms.
#[derive(Clone, Copy, Debug, PartialEq, Eq)]
pub struct CqPlace {
    /// The queue's number.
    pub number: u32,
    /// The addresses of the first words of its two areas.
    pub areas: [u32; 2],
    /// The log2 of the number of entries that an area has room for.
    pub ceiling: u32,
    /// The log2 of the number of entries in use, at most 23.
    pub log: u32,
    /// The address of word 0 of the doorbell record, the low 24 bits of the consumer index. Word 1 lies
    /// behind it.
    pub dbr: u32,
    /// The address of the arm register.
    pub arm_reg: u32,
    /// The address of the word with the arm sequence number.
    pub sn: u32,
}

impl CqPlace {
    /// The ring of the queue's entries and its consumer index.
    pub fn ring(&self) -> RingPlace
        ensures { result ≡ words.ring_of self.now }
    {
        RingPlace {
            base: self.areas[0],
            log: self.log,
            ci: self.dbr,
            event: false,
        }
    }
}
