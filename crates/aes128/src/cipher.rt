//! The cipher of FIPS 197, section 5.1.

ghost use Rattle.std.specs.Prelude.{◌≡◌};
ghost use Rattle.aes128.specs.Cipher.{aes128_of};

use crate::key_schedule::{ROUNDS, next_round_key};
use crate::rounds::{final_round, full_round};
use strings::xor;

/// The number of the last round, counted from 0. All rounds before it are full ones.
const LAST: usize = ROUNDS - 1;

/// The cipher of FIPS 197, section 5.1: encrypts one block, 16 bytes, under a key of 16 bytes, and
/// answers 16 bytes (`aes128_of` in specs/). The key schedule is made along the rounds.
pub fn encrypt(key: &[u8; 16], block: &[u8; 16]) -> [u8; 16]
    ensures { result ≡ aes128_of key.now block.now }
{
    let mut round_key = *key;
    let mut state = xor(block, key);
    for n in 0..LAST {
        round_key = next_round_key(&round_key, n);
        state = full_round(&state, &round_key);
    }
    final_round(&state, &next_round_key(&round_key, LAST))
}
