//! What a send entry says.

use crate::inline_bytes::InlineBytes;
use crate::sge_array::SgeArray;
use verbs_types::Op;

/// The data of a request, in fixed size.
#[derive(Clone, Copy, Debug, PartialEq, Eq)]
pub enum SentBody {
    /// Pieces of registered memory, in order.
    Sges(SgeArray),
    /// Bytes that stand in the entry itself.
    Inline(InlineBytes),
}

/// A request of a send queue as its entry says it: in fixed size, and without the program's own number,
/// which no entry has.
#[derive(Clone, Copy, Debug, PartialEq, Eq)]
pub struct Sent {
    pub op: Op,
    /// A completion is wanted even where the request succeeds.
    pub wanted: bool,
    pub solicited: bool,
    pub fence: bool,
    pub body: SentBody,
    /// The 16-bit index that the entry names as that of its first block.
    pub index: u16,
    /// The queue pair number that the entry names, 24 bits.
    pub qpn: u32,
}
