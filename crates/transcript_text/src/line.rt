//! A line, written from its last byte to its first.
ghost use Rattle.std.specs.Prelude.{◌≡◌, ◌<◌, ◌≤◌, ◌+◌, ◌-◌, ◌/◌, ◌%◌, [], ◌∷◌, ◌++◌, codes, decimal, drop, length};
ghost use Rattle.scenario_text.specs.Requests.{hex, hex_digit};

use itoa::write_digits;
use std::marker::Model;

/// The most bytes of a line.
const LINE: usize = 80;

/// The most bytes of a name.
const NAME: usize = 16;

/// All bytes in two hexadecimal digits, from 0 on.
static PAIRS: [u8; 512] =
    *b"000102030405060708090a0b0c0d0e0f101112131415161718191a1b1c1d1e1f202122232425262728292a2b2c2d2e2f303132333435363738393a3b3c3d3e3f404142434445464748494a4b4c4d4e4f505152535455565758595a5b5c5d5e5f606162636465666768696a6b6c6d6e6f707172737475767778797a7b7c7d7e7f808182838485868788898a8b8c8d8e8f909192939495969798999a9b9c9d9e9fa0a1a2a3a4a5a6a7a8a9aaabacadaeafb0b1b2b3b4b5b6b7b8b9babbbcbdbebfc0c1c2c3c4c5c6c7c8c9cacbcccdcecfd0d1d2d3d4d5d6d7d8d9dadbdcdddedfe0e1e2e3e4e5e6e7e8e9eaebecedeeeff0f1f2f3f4f5f6f7f8f9fafbfcfdfeff";

/// A name of at most 16 bytes, which stands at the end of so many.
#[derive(Drop)]
pub(crate) struct NameEnd {
    bytes: [u8; NAME],
    count: usize,
}

impl Model for NameEnd {
    ghost use Rattle.std.specs.Prelude.{List, ℕ};

    ghost Value = { List ℕ };

    ghost use Rattle.transcript_text.specs.LineInside.{name_view, IsName};

    ghost view = { name_view };

    ghost invariant = { IsName };
}

impl NameEnd {
    /// This name.
    pub fn new(name: &[u8]) -> Self
        requires { length name.now ≤ NAME }
        ensures { result ≡ name.now }
    {
        let mut bytes = [b' '; NAME];
        bytes[NAME - name.len()..].copy_from_slice(name);
        NameEnd {
            bytes,
            count: name.len(),
        }
    }
}

/// The end of a line, to which pieces are added at the front.
#[derive(Drop)]
pub(crate) struct LineEnd {
    bytes: [u8; LINE],
    start: usize,
}

impl Model for LineEnd {
    ghost use Rattle.std.specs.Prelude.{List, ℕ};

    ghost Value = { List ℕ };

    ghost use Rattle.transcript_text.specs.LineInside.{line_view, IsLine};

    ghost view = { line_view };

    ghost invariant = { IsLine };
}

impl LineEnd {
    /// Nothing yet.
    pub fn new() -> Self
        ensures { result ≡ [] }
    {
        LineEnd {
            bytes: [0; LINE],
            start: LINE,
        }
    }

    /// The bytes.
    pub fn as_slice(&self) -> &[u8]
        ensures { result.now ≡ self.now }
    {
        &self.bytes[self.start..]
    }

    /// Begins another line, with its last byte.
    pub fn begin(&mut self)
        ensures { self.new ≡ codes "\n" }
    {
        self.bytes[LINE - 1] = b'\n';
        self.start = LINE - 1;
    }

    /// Adds one byte.
    pub fn put_byte(&mut self, byte: u8)
        requires { length self.old < LINE }
        ensures { self.new ≡ byte ∷ self.old }
    {
        let start = self.start - 1;
        self.bytes[start] = byte;
        self.start = start;
    }

    /// Adds a number in decimal digits.
    pub fn put_number(&mut self, number: u32)
        requires { length self.old + 10 ≤ LINE }
        ensures text { self.new ≡ decimal number ++ self.old }
        ensures short { length self.new ≤ length self.old + 10 }
    {
        self.start = write_digits(u64::from(number), &mut self.bytes, self.start);
    }

    /// Adds a word in 16 hexadecimal digits.
    pub fn put_word(&mut self, word: u64)
        requires { length self.old + 16 ≤ LINE }
        ensures text { self.new ≡ hex 16 word ++ self.old }
        ensures long { length self.new ≡ length self.old + 16 }
    {
        let mut left = word;
        for written in 0..8_u32 {
            self.put_pair(left % 256);
            left /= 256;
        }
    }

    /// Adds a byte in two hexadecimal digits.
    fn put_pair(&mut self, byte: u64)
        requires byte { byte < 256 }
        requires room { length self.old + 2 ≤ LINE }
        ensures { self.new ≡ hex_digit (byte / 16) ∷ hex_digit (byte % 16) ∷ self.old }
    {
        let start = self.start - 2;
        let from = 2 * byte as usize;
        self.bytes[start] = PAIRS[from];
        self.bytes[start + 1] = PAIRS[from + 1];
        self.start = start;
    }

    /// Adds a name.
    pub fn put_name(&mut self, name: &NameEnd)
        requires { length self.old + NAME ≤ LINE }
        ensures { self.new ≡ name.now ++ self.old }
    {
        self.put_last(&name.bytes, name.count);
    }

    /// Adds the last `count` of these bytes.
    pub fn put_last<const N: usize>(&mut self, bytes: &[u8; N], count: usize)
        requires count { count ≤ N }
        requires room { length self.old + N ≤ LINE }
        ensures { self.new ≡ drop (N - count) bytes.now ++ self.old }
    {
        let (bytes, end) = (*bytes, self.start);
        self.bytes[end - N..end].copy_from_slice(&bytes);
        self.start = end - count;
    }
}
