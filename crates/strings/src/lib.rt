//! Strings of 16 bytes: exclusive or, comparison, numbers as strings, and rows of strings in a
//! buffer; single bytes, and bytes in hex. No call refuses: a `requires` clause says what it needs.
#![tactic(auto)]

ghost use Rattle.std.specs.Prelude.{◌≡◌, ℕ, ◌+◌, ◌*◌, ◌^◌, ◌<◌, ◌≤◌, ◌++◌, ◌≢◌, ◌↔◌};
ghost use Rattle.std.specs.Prelude.{length, take, drop, IsTrue, slice_index};
ghost use Rattle.std.specs.Str.{bytes_eq};
ghost use Rattle.strings.specs.Strings.{xor, numeral, string_at, put_string};

mod hex;

pub use hex::Hex;

/// The bytes of a string.
const LENGTH: usize = 16;

/// The string of 16 zero bytes.
pub const ZERO: [u8; 16] = [0; 16];

/// Exclusive or of `string` and `mask`, byte by byte. Both have `N` bytes, and so has the answer.
/// The same mask on the answer gives `string` back.
pub fn xor<const N: usize>(string: &[u8; N], mask: &[u8; N]) -> [u8; N]
    ensures value { result ≡ xor string.now mask.now }
    ensures back { xor result mask.now ≡ string.now }
{
    let mut out = *string;
    for (j, byte) in mask.iter().enumerate() {
        out[j] ^= *byte;
    }
    out
}

/// Whether two strings of 16 bytes are the same. Whoever compares strings calls this.
pub fn same(left: &[u8; 16], right: &[u8; 16]) -> bool
    ensures value { result ≡ bytes_eq left.now right.now }
    ensures decides { IsTrue result ↔ (left.now ≡ right.now) }
{
    left == right
}

/// A number of 128 bits written as a string: all 16 bytes, little-endian. No two numbers give the
/// same string.
pub fn numeral(n: u128) -> [u8; 16]
    ensures value { result ≡ numeral n }
    ensures known { (m : ℕ) → m < 2 ^ 128 → numeral m ≡ result → m ≡ n }
{
    n.to_le_bytes()
}

/// The byte at place `place` of `bytes`, counted from 0; past the end the answer is 0.
pub fn byte_at(bytes: &[u8], place: usize) -> u8
    ensures { result ≡ slice_index bytes.now place }
{
    bytes.get(place).copied().unwrap_or(0)
}

/// String number `i` of the row of strings in `bytes`: the 16 bytes from byte 16 * i on, which must
/// lie in it.
#[tactic(auto, using(crate::proofs::Laws::chunk_at))]
pub fn string_at(bytes: &[u8], i: usize) -> [u8; 16]
    requires { 16 * i + 16 ≤ length bytes.now }
    ensures { result ≡ string_at bytes.now i }
{
    bytes.as_chunks().0[i]
}

/// Writes the 16 bytes of `string` over string number `i` of the row of strings in `bytes`, which
/// must lie in it. All other bytes stay.
pub fn put_string(bytes: &mut [u8], i: usize, string: &[u8; 16])
    requires { 16 * i + 16 ≤ length bytes.old }
    ensures after { bytes.new ≡ put_string bytes.old i string.now }
    ensures here { string_at bytes.new i ≡ string.now }
    ensures others { (k : ℕ) → (k ≢ i) → string_at bytes.new k ≡ string_at bytes.old k }
{
    let start = LENGTH * i;
    bytes[start..start + LENGTH].copy_from_slice(string);
}

/// Writes all bytes of `part` into `bytes` from byte `at` on; it must fit there. The bytes before
/// and after it stay.
pub fn put(bytes: &mut [u8], at: usize, part: &[u8])
    requires { at + length part.now ≤ length bytes.old }
    ensures front { take (at + length part.now) bytes.new ≡ take at bytes.old ++ part.now }
    ensures back { drop (at + length part.now) bytes.new ≡ drop (at + length part.now) bytes.old }
{
    bytes[at..at + part.len()].copy_from_slice(part);
}
