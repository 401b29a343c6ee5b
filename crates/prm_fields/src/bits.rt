//! Reading and writing a row of bits of a byte string.

ghost use Rattle.std.specs.Prelude.{◌≡◌, ◌==◌, ◌+◌, ◌-◌, ◌*◌, ◌/◌, ◌%◌, ◌^◌, ◌<◌, ◌≤◌, length};
ghost use Rattle.prm_fields.specs.Bits.{field_value, KeepsOtherBits};

/// Bits `BIT` to `BIT + WIDTH - 1` of a byte string, bit 0 being the top bit of byte 0.
pub struct Field<const BIT: u32, const WIDTH: u32>;

impl<const BIT: u32, const WIDTH: u32> Field<BIT, WIDTH> {
    /// The number that the field's bits spell, the first bit being the highest.
    #[inline(always)]
    pub fn get<const B: usize>(&self, bytes: &[u8; B]) -> u64
        requires wide { 1 ≤ WIDTH }
        requires narrow { WIDTH ≤ 64 }
        requires inside { BIT + WIDTH ≤ 8 * B }
        ensures value { result ≡ field_value bytes.now BIT WIDTH }
        ensures small { result < 2 ^ WIDTH }
    {
        number_at(bytes, BIT as usize, WIDTH as usize)
    }

    /// Makes the field's bits spell `value`.
    #[inline(always)]
    pub fn put<const B: usize>(&self, bytes: &mut [u8; B], value: u64)
        requires wide { 1 ≤ WIDTH }
        requires narrow { WIDTH ≤ 64 }
        requires inside { BIT + WIDTH ≤ 8 * B }
        requires fits { value < 2 ^ WIDTH }
        ensures stored { field_value bytes.new BIT WIDTH ≡ value }
        ensures others { KeepsOtherBits bytes.old bytes.new BIT WIDTH }
    {
        put_number_at(bytes, BIT as usize, WIDTH as usize, value);
    }
}

/// Word `k` of a byte string: its eight bytes from byte `8 * k` on, read big-endian.
#[inline(always)]
pub fn word(bytes: &[u8], k: u32) -> u64
    requires { 8 * k + 8 ≤ length bytes.now }
    ensures { result ≡ field_value bytes.now (64 * k) 64 }
{
    number_at(bytes, 64 * k as usize, 64)
}

/// Makes word `k` of a byte string `word`.
#[inline(always)]
pub fn put_word(bytes: &mut [u8], k: u32, word: u64)
    requires { 8 * k + 8 ≤ length bytes.old }
    ensures stored { field_value bytes.new (64 * k) 64 ≡ word }
    ensures others { KeepsOtherBits bytes.old bytes.new (64 * k) 64 }
{
    put_number_at(bytes, 64 * k as usize, 64, word);
}

/// The number that `width` bits from `first` on spell.
///
/// A wide field is read in two halves: LLVM makes one load and one byte swap of up to five bytes
/// that are shifted together, and then of two such loads, but not of eight bytes at once.
#[inline(always)]
fn number_at(bytes: &[u8], first: usize, width: usize) -> u64
    requires wide { 1 ≤ width }
    requires narrow { width ≤ 64 }
    requires inside { first + width ≤ 8 * length bytes.now }
    requires addressable { first + width < 2 ^ 63 }
    ensures { result ≡ field_value bytes.now first width }
{
    if width > 32 {
        let high = half_at(bytes, first, width - 32);
        high << 32 | half_at(bytes, first + (width - 32), 32)
    } else {
        half_at(bytes, first, width)
    }
}

/// The number that at most 32 bits from `first` on spell.
#[inline(always)]
fn half_at(bytes: &[u8], first: usize, width: usize) -> u64
    requires wide { 1 ≤ width }
    requires narrow { width ≤ 32 }
    requires inside { first + width ≤ 8 * length bytes.now }
    requires addressable { first + width < 2 ^ 63 }
    ensures { result ≡ field_value bytes.now first width }
{
    let end = first + width;
    let mut value = 0;
    for i in first / 8..(end + 7) / 8 {
        let from = first.max(8 * i);
        let to = end.min(8 * i + 8);
        value = value << (to - from) | bits_of(bytes[i], from - 8 * i, to - from);
    }
    value
}

/// Makes the `width` bits from `first` on spell `value`.
#[inline(always)]
fn put_number_at(bytes: &mut [u8], first: usize, width: usize, value: u64)
    requires wide { 1 ≤ width }
    requires narrow { width ≤ 64 }
    requires inside { first + width ≤ 8 * length bytes.old }
    requires addressable { first + width < 2 ^ 63 }
    requires fits { value < 2 ^ width }
    ensures stored { field_value bytes.new first width ≡ value }
    ensures others { KeepsOtherBits bytes.old bytes.new first width }
{
    let end = first + width;
    for i in first / 8..(end + 7) / 8 {
        let from = first.max(8 * i);
        let to = end.min(8 * i + 8);
        bytes[i] = with_bits(bytes[i], from - 8 * i, to - from, value >> (end - to));
    }
}

/// The number that `count` bits of a byte spell, from its bit `from` on.
#[inline(always)]
fn bits_of(byte: u8, from: usize, count: usize) -> u64
    requires { from + count ≤ 8 }
    ensures { result ≡ byte / 2 ^ (8 - from - count) % 2 ^ count }
{
    (byte as u64 >> (8 - from - count)) & ((1 << count) - 1)
}

/// A byte with `count` bits, from its bit `from` on, replaced by the low bits of `value`.
#[inline(always)]
fn with_bits(byte: u8, from: usize, count: usize, value: u64) -> u8
    requires { from + count ≤ 8 }
    ensures replaced { result / 2 ^ (8 - from - count) % 2 ^ count ≡ value % 2 ^ count }
    ensures before { result / 2 ^ (8 - from) ≡ byte / 2 ^ (8 - from) }
    ensures after { result % 2 ^ (8 - from - count) ≡ byte % 2 ^ (8 - from - count) }
{
    let byte = byte as u64;
    let after = 8 - from - count;
    let before = byte >> (8 - from);
    let here = value & ((1 << count) - 1);
    let rest = byte & ((1 << after) - 1);
    ((before << count | here) << after | rest) as u8
}

/// Whether the `width` bits from `first` on are all 0.
#[inline(always)]
pub(crate) fn is_clear(bytes: &[u8], first: usize, width: usize) -> bool
    requires inside { first + width ≤ 8 * length bytes.now }
    requires addressable { first + width < 2 ^ 63 }
    ensures { result ≡ (field_value bytes.now first width == 0) }
{
    let end = first + width;
    let mut found = 0;
    for i in first / 8..(end + 7) / 8 {
        let from = first.max(8 * i);
        let to = end.min(8 * i + 8);
        found |= bits_of(bytes[i], from - 8 * i, to - from);
    }
    found == 0
}
