//! The tree hash that is made from the cipher by the Matyas-Meyer-Oseas construction.

ghost use Rattle.aes128.specs.Cipher.{aes_step, aes_pair};
ghost use Rattle.aes128.specs.Bounds.{step-str, pair-str};
ghost use Rattle.std.proofs.Common.{rules};

use crate::cipher::encrypt;
use hashes::{ChainHash, TreeHash};
use strings::xor;

/// The tree hash number 2: the Matyas-Meyer-Oseas construction over AES-128.
pub struct Aes128Hash;

impl ChainHash for Aes128Hash {
    const NUMBER: u8 = 2;

    ghost NUMBER = { 2 };

    ghost steps = { aes_step };

    ghost number_range = { Prim.search rules };

    ghost gives = { step-str };

    /// The encryption of the string under the key, exclusive or the string.
    fn step(key: &[u8; 16], string: &[u8; 16]) -> [u8; 16] {
        xor(&encrypt(key, string), string)
    }
}

impl TreeHash for Aes128Hash {
    ghost pairs = { aes_pair };

    ghost joins = { pair-str };

    /// Two rounds of the construction: a step on the left string gives the key for the right one.
    fn pair(key: &[u8; 16], left: &[u8; 16], right: &[u8; 16]) -> [u8; 16] {
        Self::step(&Self::step(key, left), right)
    }
}
