//! The tree hash that is made of SHA-256, cut to its first 16 bytes.

ghost use Rattle.std.specs.Prelude.{◌≡◌, take};
ghost use Rattle.sha256.specs.TreeHash.{sha_step, sha_pair};
ghost use Rattle.sha256.specs.Cut.{cut-str};
ghost use Rattle.std.proofs.Common.{rules};

use crate::constants::DIGEST;
use crate::sha256;
use hashes::{ChainHash, TreeHash};
use strings::put;

/// The bytes of a prefix. A prefix comes before the key and the strings, so that no input of a step
/// is one of a pair.
const PREFIX: usize = 4;

/// The prefix of a step.
const STEP: [u8; PREFIX] = *b"STEP";

/// The prefix of a pair.
const PAIR: [u8; PREFIX] = *b"PAIR";

/// Where the string of a step, or the left string of a pair, stands: after the prefix and the key.
const FIRST: usize = PREFIX + 16;

/// Where the right string of a pair stands, and the input of a step ends.
const SECOND: usize = FIRST + 16;

/// Where the input of a pair ends.
const END: usize = SECOND + 16;

// The first 16 bytes of a hash value.
fn cut(digest: &[u8; DIGEST]) -> [u8; 16]
    ensures { result ≡ take 16 digest.now }
{
    *digest.first_chunk().unwrap()
}

/// The tree hash number 1: SHA-256 of a prefix, the key and the strings, cut to its first 16 bytes.
pub struct Sha256Hash;

impl ChainHash for Sha256Hash {
    const NUMBER: u8 = 1;

    ghost NUMBER = { 1 };

    ghost steps = { sha_step };

    ghost number_range = { Prim.search rules };

    ghost gives = { λ k s a b. cut-str _ };

    /// The hash of STEP, the key and the string: 36 bytes, which fill one block with the padding.
    fn step(key: &[u8; 16], string: &[u8; 16]) -> [u8; 16] {
        let mut bytes = [0; SECOND];
        put(&mut bytes, 0, &STEP);
        put(&mut bytes, PREFIX, key);
        put(&mut bytes, FIRST, string);
        cut(&sha256(&bytes))
    }
}

impl TreeHash for Sha256Hash {
    ghost pairs = { sha_pair };

    ghost joins = { λ k l r a b c. cut-str _ };

    /// The hash of PAIR, the key and both strings: 52 bytes, which fill one block with the padding.
    fn pair(key: &[u8; 16], left: &[u8; 16], right: &[u8; 16]) -> [u8; 16] {
        let mut bytes = [0; END];
        put(&mut bytes, 0, &PAIR);
        put(&mut bytes, PREFIX, key);
        put(&mut bytes, FIRST, left);
        put(&mut bytes, SECOND, right);
        cut(&sha256(&bytes))
    }
}
