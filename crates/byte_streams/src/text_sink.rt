//! A sink in memory.
ghost use Rattle.std.specs.Prelude.{◌≡◌, ◌<◌, ◌-◌, ◌^◌, [], IsErr, Contains};
ghost use Rattle.byte_streams.specs.Sink.{Writes};

use crate::failed::Failed;
use crate::sink::Sink;
use std::alloc::Global;

/// A sink that keeps what is written and tells it. Listed calls fail, and so does one for which
/// there is no memory.
#[derive(Drop)]
pub struct TextSink<'a> {
    /// The bytes written.
    pub written: Vec<u8>,
    /// The most bytes that one write takes.
    pub step: usize,
    /// The numbers of the writes that fail, from 0.
    pub failing: &'a [u64],
    /// The writes so far.
    pub calls: u64,
    /// The count of faults.
    pub faults: u64,
    ghost moves: { 0 < step },
}

impl<'a> TextSink<'a> {
    /// An empty sink whose writes take whole pieces, and do not fail while there is memory.
    pub fn new(alloc: Global) -> Self
        ensures written { result.written.items ≡ [] }
        ensures step { result.step ≡ 2 ^ 64 - 1 }
        ensures failing { result.failing.now ≡ [] }
        ensures calls { result.calls ≡ 0 }
        ensures faults { result.faults ≡ 0 }
    {
        TextSink {
            written: Vec::new(alloc),
            step: usize::MAX,
            failing: &[],
            calls: 0,
            faults: 0,
        }
    }
}

impl<'a> Sink for TextSink<'a> {
    ghost use Rattle.std.specs.Prelude.{Some};

    ghost state = { λ s. record { written = Some s.written.items; faults = s.faults } };

    fn write(&mut self, piece: &[u8]) -> Result<usize, Failed>
        ensures writes { Writes (record { written = Some self.old.written.items; faults = self.old.faults })
            (record { written = Some self.new.written.items; faults = self.new.faults }) piece.now result }
        ensures listed { Contains self.old.failing.now self.old.calls → IsErr result }
    {
        let call = self.calls;
        self.calls = call.saturating_add(1);
        let count = self.step.min(piece.len());
        if self.failing.contains(&call)
            || self.written.extend_from_slice(&piece[..count]).is_err()
        {
            self.faults = self.faults.saturating_add(1);
            return Err(Failed);
        }
        Ok(count)
    }
}
