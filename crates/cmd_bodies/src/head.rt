//! The first 16 bytes of an input or an output, and what stands behind them.

ghost use Rattle.std.specs.Prelude.{◌≡◌, drop};
ghost use Rattle.cmd_bodies.specs.Head.{SameHead};

/// The first 16 bytes. Those that are not there are 0.
#[inline(always)]
pub(crate) fn first_bytes(bytes: &[u8]) -> [u8; 16]
    ensures { SameHead result bytes.now }
{
    let mut head = [0; 16];
    let held = bytes.len().min(16);
    head[..held].copy_from_slice(&bytes[..held]);
    head
}

/// What stands behind the first 16 bytes.
#[inline(always)]
pub(crate) fn behind_head(bytes: &[u8]) -> &[u8]
    ensures { result.now ≡ drop 16 bytes.now }
{
    &bytes[bytes.len().min(16)..]
}
