//! The practice hash.

ghost use Rattle.hashes.specs.Practice.{practice_step, practice_pair};
ghost use Rattle.hashes.specs.Bytewise.{step-str, pair-str};
ghost use Rattle.std.proofs.Common.{rules};

use crate::{ChainHash, TreeHash};

/// The tree hash number 3, which can be followed by hand. It keeps nothing secret, and collisions
/// of it are found at will.
pub struct Practice;

impl ChainHash for Practice {
    const NUMBER: u8 = 3;

    ghost NUMBER = { 3 };

    ghost steps = { practice_step };

    ghost number_range = { Prim.search rules };

    ghost gives = { step-str };

    /// Half of each byte of the string, rounded down, exclusive or the key's byte at its place.
    fn step(key: &[u8; 16], string: &[u8; 16]) -> [u8; 16] {
        let mut out = *string;
        for (j, mask) in key.iter().enumerate() {
            out[j] = out[j] / 2 ^ *mask;
        }
        out
    }
}

impl TreeHash for Practice {
    ghost pairs = { practice_pair };

    ghost joins = { pair-str };

    /// The sum of both bytes at each place, modulo 256, exclusive or the key's byte there.
    fn pair(key: &[u8; 16], left: &[u8; 16], right: &[u8; 16]) -> [u8; 16] {
        let mut out = *left;
        for (j, byte) in right.iter().enumerate() {
            out[j] = out[j].wrapping_add(*byte) ^ key[j];
        }
        out
    }
}
