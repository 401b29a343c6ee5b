//! Where a command reads its input.
ghost use Rattle.byte_streams.specs.Source.{SourceState, Reads};

use crate::failed::Failed;

/// Bytes to read, in order.
pub trait Source {
    /// The bytes left, where the source tells them, and its count of faults.
    ghost state: { Self → SourceState };

    /// Reads some of the bytes that are left to the front of `buf`, and gives their number. It is
    /// 0 for a buffer that has room only where no byte is left. `Failed` comes only where the count
    /// of faults rose, and says nothing of the bytes that are then left.
    fn read(&mut self, buf: &mut [u8]) -> Result<usize, Failed>
        ensures { Reads (state self.old) (state self.new) buf.new result };
}
