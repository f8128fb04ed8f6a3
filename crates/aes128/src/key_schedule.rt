//! The key expansion of FIPS 197, section 5.2: one round key after the other.

ghost use Rattle.std.specs.Prelude.{◌≡◌, ◌+◌, ◌<◌};
ghost use Rattle.aes128.specs.Schedule.{rcon, key_of_round};
ghost use Rattle.aes128.specs.Pieces.{next_key};

use crate::words::{column_of, from_columns, rot_word, sub_word};
use strings::xor;

/// The rounds of the cipher. Each has a round key, and the key itself comes before the first.
pub(crate) const ROUNDS: usize = 10;

/// The first bytes of the round constants: the powers of x in the field, from x^0 to x^9.
const ROUND_CONSTANTS: [u8; ROUNDS] = [0x01, 0x02, 0x04, 0x08, 0x10, 0x20, 0x40, 0x80, 0x1b, 0x36];

// Round constant n + 1, a word.
fn round_constant(n: usize) -> [u8; 4]
    requires { n < 10 }
    ensures { result ≡ rcon (n + 1) }
{
    [ROUND_CONSTANTS[n], 0, 0, 0]
}

/// The key of round n + 1, from that of round n: 16 bytes each.
pub(crate) fn next_round_key(round_key: &[u8; 16], n: usize) -> [u8; 16]
    requires { n < 10 }
    ensures { result ≡ next_key round_key.now (n + 1) }
{
    let last = column_of(round_key, 3);
    let temp = xor(&sub_word(&rot_word(&last)), &round_constant(n));
    let first = xor(&column_of(round_key, 0), &temp);
    let second = xor(&column_of(round_key, 1), &first);
    let third = xor(&column_of(round_key, 2), &second);
    let fourth = xor(&last, &third);
    from_columns(&first, &second, &third, &fourth)
}

/// The last round key, 16 bytes, of the key expansion of FIPS 197, section 5.2, from a key of 16
/// bytes: that of round 10 (`key_of_round` in specs/).
pub fn last_round_key(key: &[u8; 16]) -> [u8; 16]
    ensures { result ≡ key_of_round key.now 10 }
{
    let mut round_key = *key;
    for n in 0..ROUNDS {
        round_key = next_round_key(&round_key, n);
    }
    round_key
}
