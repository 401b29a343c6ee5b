//! Where an event queue lies.
ghost use Rattle.std.specs.Prelude.{◌≡◌};
ghost use Rattle.eq_pair.specs.Place as words;

use owner_ring::RingPlace;

/// Where an event queue lies, in words of the bus: its `2^log` entries of 8 words each, `log` at most
/// 23, and the register of its consumer index, which is the Programmer's Reference Manual's register
/// 0x40 of a UAR page. The places on the bus are this project's own.
#[derive(Clone, Copy, Debug, PartialEq, Eq)]
pub struct EqPlace {
    pub base: u32,
    pub log: u32,
    pub reg: u32,
    /// The queue's number, below 256: the register has it above the 24 bits of the consumer index.
    pub number: u32,
}

impl EqPlace {
    /// The ring of the queue's entries and its register.
    pub fn ring(&self) -> RingPlace
        ensures { result ≡ words.ring_of self.now }
    {
        RingPlace {
            base: self.base,
            log: self.log,
            ci: self.reg,
            event: true,
        }
    }
}
