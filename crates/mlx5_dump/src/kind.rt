//! The kinds of dumps.
ghost use Rattle.std.specs.Prelude.{◌≡◌, ◌≢◌, ℕ, List, IfSome, IfNone};
ghost use Rattle.mlx5_dump.specs.Kind.{has_length};
ghost use Rattle.mlx5_dump.specs.Line.{dump_text};
ghost use Rattle.mlx5_dump.specs.declared.kind.Kind.{Kind};

/// What a line says that its bytes are.
#[derive(Clone, Copy, Debug, PartialEq, Eq)]
pub enum Kind {
    /// A completion queue entry, 64 bytes.
    Cqe,
    /// An event queue entry, 64 bytes.
    Eqe,
    /// An entry of a send queue, one to four blocks of 64 bytes.
    Send,
    /// A command queue entry, 64 bytes.
    Entry,
    /// A mailbox block, 576 bytes.
    Block,
    /// The input of a command, 16 to 1,040 bytes.
    Body,
}

/// The most bytes that a dump has.
pub const MOST_BYTES: usize = 1040;

impl Kind {
    /// Whether a dump of this kind may have `count` bytes.
    pub fn has_length(self, count: usize) -> bool
        ensures { result ≡ has_length self count }
    {
        match self {
            Kind::Cqe | Kind::Eqe | Kind::Entry => count == 64,
            Kind::Send => 64 <= count && count <= 256 && count % 64 == 0,
            Kind::Block => count == 576,
            Kind::Body => 16 <= count && count <= MOST_BYTES,
        }
    }
}

/// The kind that a line names, and what stands behind the name and a space.
pub fn kind_and_digits(line: &[u8]) -> Option<(Kind, &[u8])>
    ensures found { IfSome result (λ found. line.now ≡ dump_text found.0 found.1.now) }
    ensures none { IfNone result ((kind : Kind) (digits : List ℕ) → line.now ≢ dump_text kind digits) }
{
    if let Some(digits) = line.strip_prefix(b"cqe ") {
        return Some((Kind::Cqe, digits));
    }
    if let Some(digits) = line.strip_prefix(b"eqe ") {
        return Some((Kind::Eqe, digits));
    }
    if let Some(digits) = line.strip_prefix(b"send ") {
        return Some((Kind::Send, digits));
    }
    if let Some(digits) = line.strip_prefix(b"entry ") {
        return Some((Kind::Entry, digits));
    }
    if let Some(digits) = line.strip_prefix(b"block ") {
        return Some((Kind::Block, digits));
    }
    if let Some(digits) = line.strip_prefix(b"body ") {
        return Some((Kind::Body, digits));
    }
    None
}
