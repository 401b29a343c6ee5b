//! Signatures: a byte that makes the exclusive-or of a whole 0xff.

ghost use Rattle.std.specs.Prelude.{◌≡◌};
ghost use Rattle.cmd_format.specs.Signature.{exclusive_or as exclusive_or_of};

/// The exclusive-or of all bytes.
#[inline]
pub fn exclusive_or(bytes: &[u8]) -> u8
    ensures { result ≡ exclusive_or_of bytes.now }
{
    bytes.iter().fold(0, |sum, byte| sum ^ *byte)
}
