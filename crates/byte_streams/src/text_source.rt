//! A source in memory.
ghost use Rattle.std.specs.Prelude.{◌≡◌, ◌↔◌, ◌<◌, ◌-◌, ◌^◌, [], IsErr, Contains};
ghost use Rattle.byte_streams.specs.Source.{Reads};

use crate::failed::Failed;
use crate::source::Source;

/// A source over a text, which tells the bytes left. Listed calls fail.
#[derive(Drop)]
pub struct TextSource<'a> {
    /// The bytes left.
    pub rest: &'a [u8],
    /// The most bytes that one read gives.
    pub step: usize,
    /// The numbers of the reads that fail, from 0.
    pub failing: &'a [u64],
    /// The reads so far.
    pub calls: u64,
    /// The count of faults.
    pub faults: u64,
    ghost moves: { 0 < step },
}

impl<'a> TextSource<'a> {
    /// A source whose reads give as much as there is room for, and do not fail.
    pub fn new(text: &'a [u8]) -> Self
        ensures rest { result.rest.now ≡ text.now }
        ensures step { result.step ≡ 2 ^ 64 - 1 }
        ensures failing { result.failing.now ≡ [] }
        ensures calls { result.calls ≡ 0 }
        ensures faults { result.faults ≡ 0 }
    {
        TextSource {
            rest: text,
            step: usize::MAX,
            failing: &[],
            calls: 0,
            faults: 0,
        }
    }
}

impl<'a> Source for TextSource<'a> {
    ghost use Rattle.std.specs.Prelude.{Some};

    ghost state = { λ s. record { left = Some s.rest.now; faults = s.faults } };

    fn read(&mut self, buf: &mut [u8]) -> Result<usize, Failed>
        ensures reads { Reads (record { left = Some self.old.rest.now; faults = self.old.faults })
            (record { left = Some self.new.rest.now; faults = self.new.faults }) buf.new result }
        ensures listed { IsErr result ↔ Contains self.old.failing.now self.old.calls }
    {
        let call = self.calls;
        self.calls = call.saturating_add(1);
        if self.failing.contains(&call) {
            self.faults = self.faults.saturating_add(1);
            return Err(Failed);
        }
        let count = self.step.min(buf.len()).min(self.rest.len());
        buf[..count].copy_from_slice(&self.rest[..count]);
        self.rest = &self.rest[count..];
        Ok(count)
    }
}
