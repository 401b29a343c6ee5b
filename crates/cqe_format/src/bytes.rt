//! The words of an entry as bytes.

ghost use Rattle.std.specs.Prelude.{◌≡◌, ◌+◌, ◌/◌, ◌%◌, ◌≤◌, ◌++◌, take, drop, slice_index};
ghost use Rattle.std.specs.Int.{w64, to_be_bytes};
ghost use Rattle.prm_fields.specs.Bits.{field_value};
ghost use Rattle.cqe_format.specs.Bytes.{entry_bytes as bytes_of_words};

use prm_fields::word;

/// Writes a word's bytes from byte `at` on.
#[inline(always)]
fn copy_word(bytes: &mut [u8; 64], at: usize, word: u64)
    requires { at + 8 ≤ 64 }
    ensures { bytes.new ≡ take at bytes.old ++ to_be_bytes w64 word ++ drop (at + 8) bytes.old }
{
    bytes[at..at + 8].copy_from_slice(&word.to_be_bytes());
}

/// The bytes of an entry's words.
#[inline(always)]
pub(crate) fn entry_bytes(words: &[u64; 8]) -> [u8; 64]
    ensures { result ≡ bytes_of_words words.now }
{
    let mut bytes = [0; 64];
    copy_word(&mut bytes, 0, words[0]);
    copy_word(&mut bytes, 8, words[1]);
    copy_word(&mut bytes, 16, words[2]);
    copy_word(&mut bytes, 24, words[3]);
    copy_word(&mut bytes, 32, words[4]);
    copy_word(&mut bytes, 40, words[5]);
    copy_word(&mut bytes, 48, words[6]);
    copy_word(&mut bytes, 56, words[7]);
    bytes
}

/// The words of an entry's bytes.
#[inline(always)]
pub(crate) fn entry_words(bytes: &[u8; 64]) -> [u64; 8]
    ensures again { bytes_of_words result ≡ bytes.now }
    ensures owner { slice_index result 7 % 2 ≡ field_value bytes.now 511 1 }
    ensures opcode { slice_index result 7 / 16 % 16 ≡ field_value bytes.now 504 4 }
{
    [
        word(bytes, 0),
        word(bytes, 1),
        word(bytes, 2),
        word(bytes, 3),
        word(bytes, 4),
        word(bytes, 5),
        word(bytes, 6),
        word(bytes, 7),
    ]
}
