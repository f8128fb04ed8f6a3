//! SHA-256 of a message: its whole blocks, then what is left of it with the padding.

ghost use Rattle.std.specs.Prelude.{◌≡◌, ◌+◌, ◌*◌, ◌/◌, ◌%◌, ◌<◌, ◌++◌, length, take};
ghost use Rattle.sha256.specs.Digest as spec;

use crate::compress::compress;
use crate::constants::{BLOCK, DIGEST, INITIAL, WORD};
use crate::state::State;
use strings::put;

/// The first byte of the padding: the bit 1, and then zeros.
const PADDING_MARK: u8 = 0x80;

/// The bytes of the field at the padding's end, which holds the message's length in bits.
const LENGTH_FIELD: usize = 8;

// The hash value after the whole blocks of `bytes`, from `start` on; a part of a block at the end
// is left out.
fn hash_blocks(start: State, bytes: &[u8]) -> State
    ensures { result ≡ spec.hashed (length bytes.now / 64) start bytes.now }
{
    let (blocks, _) = bytes.as_chunks::<BLOCK>();
    let mut s = start;
    for block in blocks {
        s = compress(s, block);
    }
    s
}

// How many bytes the last `rest` bytes of a message are with the padding: one block or two.
fn padded_length(rest: usize) -> usize
    requires { rest < 64 }
    ensures { result ≡ rest + spec.zeros rest + 9 }
{
    if rest < BLOCK - LENGTH_FIELD {
        BLOCK
    } else {
        2 * BLOCK
    }
}

// `rest`, what is left of a message of `n` bytes after its whole blocks, with the padding of
// FIPS 180-4, section 5.1.1: `end` bytes, then zeros.
fn pad(rest: &[u8], n: usize, end: usize) -> [u8; 2 * BLOCK]
    requires { (length rest.now ≡ n % 64) × (end ≡ length rest.now + spec.zeros n + 9) }
    ensures { take end result ≡ rest.now ++ spec.padding n }
{
    let mut bytes = [0; 2 * BLOCK];
    put(&mut bytes, 0, rest);
    bytes[rest.len()] = PADDING_MARK;
    let bits = (n as u64).wrapping_mul(8);
    put(&mut bytes, end - LENGTH_FIELD, &bits.to_be_bytes());
    bytes
}

// The hash value as bytes: its eight words, big-endian.
fn state_bytes(s: &State) -> [u8; DIGEST]
    ensures { result ≡ spec.digest s.now }
{
    let words = [s.a, s.b, s.c, s.d, s.e, s.f, s.g, s.h];
    let mut bytes = [0; DIGEST];
    for (i, word) in words.iter().enumerate() {
        put(&mut bytes, WORD * i, &word.to_be_bytes());
    }
    bytes
}

/// SHA-256 of FIPS 180-4, section 6.2, of a message of any number of bytes, padded by section
/// 5.1.1: 32 bytes (`sha256_of` in specs/). From 2^61 bytes on, where the length in bits does not
/// fit the padding's 64 and the standard defines no hash, its low 64 bits are taken.
pub fn sha256(message: &[u8]) -> [u8; 32]
    ensures { result ≡ spec.sha256_of message.now }
{
    let n = message.len();
    let (_, rest) = message.as_chunks::<BLOCK>();
    let end = padded_length(rest.len());
    let last = pad(rest, n, end);
    let s = hash_blocks(INITIAL, message);
    state_bytes(&hash_blocks(s, &last[0..end]))
}
