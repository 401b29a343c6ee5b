//! Where a command writes its output.
ghost use Rattle.byte_streams.specs.Sink.{SinkState, Writes};

use crate::failed::Failed;

/// Takes bytes, in order.
pub trait Sink {
    /// The bytes written, where the sink tells them, and its count of faults.
    ghost state: { Self → SinkState };

    /// Writes a front part of `piece`, and gives its length, which is 0 only for an empty piece.
    /// `Failed` comes only where the count of faults rose, and then nothing was written.
    fn write(&mut self, piece: &[u8]) -> Result<usize, Failed>
        ensures { Writes (state self.old) (state self.new) piece.now result };
}
