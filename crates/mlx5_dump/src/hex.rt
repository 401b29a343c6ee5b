//! Hexadecimal digits.
ghost use Rattle.std.specs.Prelude.{◌≡◌, ◌≢◌, ◌<◌, ◌≤◌, ◌/◌, ◌%◌, ℕ, List, length, IfSome, IfNone};
ghost use Rattle.mlx5_dump.specs.Hex.{AreBytes, hex_digit, hex_text};

use crate::kind::MOST_BYTES;
use arrayvec::ArrayVec;

/// The number that a digit stands for. Capital letters are no digits.
fn digit_value(digit: u8) -> Option<u8>
    ensures small { IfSome result (λ n. n < 16) }
    ensures found { IfSome result (λ n. digit ≡ hex_digit n) }
    ensures none { IfNone result ((n : ℕ) → n < 16 → digit ≢ hex_digit n) }
{
    match digit {
        b'0'..=b'9' => Some(digit - b'0'),
        b'a'..=b'f' => Some(digit - b'a' + 10),
        _ => None,
    }
}

/// The byte of two digits.
fn byte_of(high: u8, low: u8) -> Option<u8>
    ensures high { IfSome result (λ byte. high ≡ hex_digit (byte / 16)) }
    ensures low { IfSome result (λ byte. low ≡ hex_digit (byte % 16)) }
    ensures none { IfNone result ((byte : ℕ) → byte < 256 → high ≡ hex_digit (byte / 16) → low ≢ hex_digit (byte % 16)) }
{
    let high = digit_value(high)?;
    let low = digit_value(low)?;
    Some(16 * high + low)
}

/// The bytes that digits spell, two a byte.
pub fn bytes_of(digits: &[u8]) -> Option<ArrayVec<u8, MOST_BYTES>>
    ensures found { IfSome result (λ bytes. digits.now ≡ hex_text bytes.items) }
    ensures small { IfSome result (λ bytes. AreBytes bytes.items) }
    ensures none { IfNone result ((bytes : List ℕ) → AreBytes bytes → length bytes ≤ MOST_BYTES → digits.now ≢ hex_text bytes) }
{
    let mut bytes = ArrayVec::new();
    let mut place = 0;
    while place < digits.len() {
        if place + 1 == digits.len() {
            return None;
        }
        if bytes.is_full() {
            return None;
        }
        bytes.push(byte_of(digits[place], digits[place + 1])?);
        place += 2;
    }
    Some(bytes)
}
