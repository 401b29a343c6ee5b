//! The standard streams of the process as a source and as sinks.
//!
//! Those tell no bytes, and keep none in a buffer: each call is one call of the system.
ghost use Rattle.std.specs.Prelude.{◌≡◌};

use crate::failed::Failed;
use crate::sink::Sink;
use crate::source::Source;
use std::io::{Read, Write};

/// A source over a reader, as standard input. It tells the bytes that the reader tells.
#[derive(Drop)]
pub struct StreamSource<R> {
    pub reader: R,
    /// The count of faults.
    pub faults: u64,
}

/// A sink over a writer, as standard output and standard error. It tells the bytes that the writer
/// tells.
#[derive(Drop)]
pub struct StreamSink<W> {
    pub writer: W,
    /// The count of faults.
    pub faults: u64,
}

impl<R> StreamSource<R> {
    /// A source that has had no fault.
    pub fn new(reader: R) -> Self
        ensures reader { result.reader ≡ reader }
        ensures faults { result.faults ≡ 0 }
    {
        StreamSource { reader, faults: 0 }
    }
}

impl<W> StreamSink<W> {
    /// A sink that has had no fault.
    pub fn new(writer: W) -> Self
        ensures writer { result.writer ≡ writer }
        ensures faults { result.faults ≡ 0 }
    {
        StreamSink { writer, faults: 0 }
    }
}

impl<R: Read> Source for StreamSource<R> {
    ghost state = { λ s. record { left = R.remaining s.reader; faults = s.faults } };

    fn read(&mut self, buf: &mut [u8]) -> Result<usize, Failed> {
        match self.reader.read(buf) {
            Ok(count) => Ok(count),
            Err(_) => {
                self.faults = self.faults.saturating_add(1);
                Err(Failed)
            }
        }
    }
}

impl<W: Write> Sink for StreamSink<W> {
    ghost state = { λ s. record { written = W.contents s.writer; faults = s.faults } };

    fn write(&mut self, piece: &[u8]) -> Result<usize, Failed> {
        match self.writer.write(piece) {
            Ok(count) if count > 0 || piece.is_empty() => Ok(count),
            _ => {
                self.faults = self.faults.saturating_add(1);
                Err(Failed)
            }
        }
    }
}
