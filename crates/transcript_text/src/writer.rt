//! A text that grows at its end.
ghost use Rattle.std.specs.Prelude.{◌≡◌, ◌≤◌, [], ◌∷◌, ◌++◌, codes, decimal, OnOk, IfOk};
ghost use Rattle.scenario_text.specs.Requests.{hex, hex_digit};

use itoa::Buffer;
use std::alloc::Global;
use std::marker::Model;
use verbs_types::NoMemory;

/// A text to which pieces are added at its end. After an error it may have a part of the piece.
#[derive(Debug, Drop)]
pub struct TextWriter {
    text: Vec<u8>,
}

impl Model for TextWriter {
    ghost use Rattle.std.specs.Prelude.{List, ℕ};

    ghost Value = { List ℕ };

    ghost view = { λ w. w.text.items };
}

impl TextWriter {
    /// The empty text. It does not allocate.
    pub fn new(alloc: Global) -> Self
        ensures { result ≡ [] }
    {
        TextWriter {
            text: Vec::new(alloc),
        }
    }

    /// The empty text, with room for `capacity` bytes: while they last, adding to it does not allocate.
    pub fn with_capacity(alloc: Global, capacity: usize) -> Result<Self, NoMemory>
        ensures { IfOk result (λ out. out ≡ []) }
    {
        match Vec::with_capacity(alloc, capacity) {
            Ok(text) => Ok(TextWriter { text }),
            Err(_) => Err(NoMemory),
        }
    }

    /// The bytes of the text.
    pub fn into_vec(self) -> Vec<u8>
        ensures { result.items ≡ self }
    {
        self.text
    }

    /// Adds these bytes.
    pub fn put_bytes(&mut self, bytes: &[u8]) -> Result<(), NoMemory>
        ensures { OnOk result (self.new ≡ self.old ++ bytes.now) }
    {
        match self.text.extend_from_slice(bytes) {
            Ok(()) => Ok(()),
            Err(_) => Err(NoMemory),
        }
    }

    /// Adds one byte.
    pub fn put_byte(&mut self, byte: u8) -> Result<(), NoMemory>
        ensures { OnOk result (self.new ≡ self.old ++ byte ∷ []) }
    {
        match self.text.push(byte) {
            Ok(()) => Ok(()),
            Err(_) => Err(NoMemory),
        }
    }

    /// Adds a number in decimal digits.
    pub fn put_number(&mut self, number: u64) -> Result<(), NoMemory>
        ensures { OnOk result (self.new ≡ self.old ++ decimal number) }
    {
        self.put_bytes(Buffer::new().format(number).as_bytes())
    }

    /// Adds the last `digits` hexadecimal digits of a number, 16 at most.
    pub fn put_hex(&mut self, digits: u32, number: u64) -> Result<(), NoMemory>
        requires { digits ≤ 16 }
        ensures { OnOk result (self.new ≡ self.old ++ hex digits number) }
    {
        for place in (0..digits).rev() {
            self.put_byte(hex_digit(number >> (4 * place) & 0xf))?;
        }
        Ok(())
    }

    /// Adds a space and these bytes.
    pub fn put_field(&mut self, field: &[u8]) -> Result<(), NoMemory>
        ensures { OnOk result (self.new ≡ self.old ++ (codes " " ++ field.now)) }
    {
        self.put_byte(b' ')?;
        self.put_bytes(field)
    }

    /// Adds a space and a number in decimal digits.
    pub fn put_number_field(&mut self, number: u64) -> Result<(), NoMemory>
        ensures { OnOk result (self.new ≡ self.old ++ (codes " " ++ decimal number)) }
    {
        self.put_byte(b' ')?;
        self.put_number(number)
    }

    /// Adds a space and the last `digits` hexadecimal digits of a number, 16 at most.
    pub fn put_hex_field(&mut self, digits: u32, number: u64) -> Result<(), NoMemory>
        requires { digits ≤ 16 }
        ensures { OnOk result (self.new ≡ self.old ++ (codes " " ++ hex digits number)) }
    {
        self.put_byte(b' ')?;
        self.put_hex(digits, number)
    }

    /// Adds a colon and these bytes.
    pub fn put_part(&mut self, part: &[u8]) -> Result<(), NoMemory>
        ensures { OnOk result (self.new ≡ self.old ++ (codes ":" ++ part.now)) }
    {
        self.put_byte(b':')?;
        self.put_bytes(part)
    }

    /// Adds a colon and a number in decimal digits.
    pub fn put_number_part(&mut self, number: u64) -> Result<(), NoMemory>
        ensures { OnOk result (self.new ≡ self.old ++ (codes ":" ++ decimal number)) }
    {
        self.put_byte(b':')?;
        self.put_number(number)
    }

    /// Ends a line.
    pub fn end_line(&mut self) -> Result<(), NoMemory>
        ensures { OnOk result (self.new ≡ self.old ++ codes "\n") }
    {
        self.put_byte(b'\n')
    }
}

fn hex_digit(digit: u64) -> u8
    requires { digit ≤ 15 }
    ensures { result ≡ hex_digit digit }
{
    if digit < 10 {
        b'0' + digit as u8
    } else {
        b'a' + (digit - 10) as u8
    }
}
