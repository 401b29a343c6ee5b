//! Writing a whole text.
ghost use Rattle.byte_streams.specs.Writing.{WritesAll};

use crate::failed::Failed;
use crate::sink::Sink;

/// Writes all of `text`, piece by piece, or stops at the first write that fails. An empty text
/// makes no call.
pub fn write_all<K: Sink>(sink: &mut K, text: &[u8]) -> Result<(), Failed>
    ensures whole { WritesAll (K.state sink.old) (K.state sink.new) text.now result }
{
    let mut written = 0;
    while written < text.len() {
        written += sink.write(&text[written..])?;
    }
    Ok(())
}
