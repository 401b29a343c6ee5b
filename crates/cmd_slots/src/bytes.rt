//! Words as bytes, and back.
ghost use Rattle.std.specs.Prelude.{◌≡◌, ◌*◌, ◌≤◌, length};
ghost use Rattle.cmd_slots.specs.Bytes.{bytes_of};

use prm_fields::word;

/// Writes the bytes of words, the highest byte of each first.
pub(crate) fn write_words(bytes: &mut [u8], words: &[u64])
    requires long { length bytes.old ≡ 8 * length words.now }
    requires short { length words.now ≤ 296 }
    ensures { bytes.new ≡ bytes_of words.now }
{
    for (k, word) in words.iter().enumerate() {
        bytes[8 * k..8 * k + 8].copy_from_slice(&word.to_be_bytes());
    }
}

/// Reads words from their bytes.
pub(crate) fn read_words(bytes: &[u8], words: &mut [u64])
    requires long { length bytes.now ≡ 8 * length words.old }
    requires short { length words.old ≤ 296 }
    ensures { bytes_of words.new ≡ bytes.now }
{
    for (k, to) in words.iter_mut().enumerate() {
        *to = word(bytes, k as u32);
    }
}
