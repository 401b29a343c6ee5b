//! Entries as words: units of 16 bytes in blocks of 64.

ghost use Rattle.std.specs.Prelude.{◌≡◌, ◌+◌, ◌*◌, ◌<◌, ◌≤◌, length, slice_range};
ghost use Rattle.work_entries.specs.Unit.{KeepsOtherWords, is_clear_unit, unit, word_bytes};
ghost use Rattle.work_entries.specs.Unit.{blocks_of as blocks_for};

/// A send entry as it lies in a ring: whole blocks of 64 bytes, eight words each, every word being its
/// eight bytes read big-endian. Words past the blocks are no part of the entry.
#[derive(Clone, Copy, Debug, PartialEq, Eq)]
pub struct SendWords {
    /// How many blocks the entry takes.
    pub blocks: u32,
    pub words: [u64; 32],
}

/// How many blocks `units` units take.
pub(crate) fn blocks_of(units: usize) -> usize
    requires { units ≤ 256 }
    ensures { result ≡ blocks_for units }
{
    (units + 3) / 4
}

/// The eight bytes of a word.
#[inline]
fn bytes_of(word: u64) -> [u8; 8]
    ensures { result ≡ word_bytes word }
{
    word.to_be_bytes()
}

/// The 16 bytes of unit `k`.
#[inline]
pub(crate) fn unit_at(words: &[u64], k: usize) -> [u8; 16]
    requires short { length words.now ≤ 32 }
    requires inside { 2 * k + 2 ≤ length words.now }
    ensures { result ≡ unit words.now k }
{
    let mut bytes = [0; 16];
    bytes[..8].copy_from_slice(&bytes_of(words[2 * k]));
    bytes[8..].copy_from_slice(&bytes_of(words[2 * k + 1]));
    bytes
}

/// The eight bytes from `at` on as a word.
#[inline]
fn word_at(bytes: &[u8; 16], at: usize) -> u64
    requires { at ≤ 8 }
    ensures { word_bytes result ≡ slice_range bytes.now at (at + 8) }
{
    let mut word = [0; 8];
    word.copy_from_slice(&bytes[at..at + 8]);
    u64::from_be_bytes(word)
}

/// Makes unit `k` these 16 bytes.
#[inline]
pub(crate) fn put_unit(words: &mut [u64], k: usize, bytes: &[u8; 16])
    requires short { length words.old ≤ 32 }
    requires inside { 2 * k + 2 ≤ length words.old }
    ensures stored { unit words.new k ≡ bytes.now }
    ensures others { KeepsOtherWords words.old words.new (2 * k) 2 }
{
    words[2 * k] = word_at(bytes, 0);
    words[2 * k + 1] = word_at(bytes, 8);
}

/// Whether the 16 bytes of unit `k` are all 0.
#[inline]
pub(crate) fn is_clear(words: &[u64], k: usize) -> bool
    requires short { length words.now ≤ 32 }
    requires inside { 2 * k + 2 ≤ length words.now }
    ensures { result ≡ is_clear_unit words.now k }
{
    words[2 * k] == 0 && words[2 * k + 1] == 0
}
