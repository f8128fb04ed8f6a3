//! The worst hash that there can be.

ghost use Rattle.std.proofs.Common.{rules};
ghost use Rattle.strings.specs.Strings.{zero_string};
ghost use Rattle.examples.specs.Constant.{constant-str};

use hashes::{ChainHash, TreeHash};

/// The tree hash number 0, which gives the zero string whatever it is given. It keeps the laws of
/// hashes, so all that is promised over every hash holds over it: where verify accepts a record that
/// was not issued, trace shows a break.
pub struct ConstantHash;

impl ChainHash for ConstantHash {
    const NUMBER: u8 = 0;

    ghost NUMBER = { 0 };

    ghost steps = { λ k s. zero_string };

    ghost number_range = { Prim.search rules };

    ghost gives = { λ k s _ _. constant-str };

    /// The zero string, 16 bytes.
    fn step(_key: &[u8; 16], _string: &[u8; 16]) -> [u8; 16] {
        [0; 16]
    }
}

impl TreeHash for ConstantHash {
    ghost pairs = { λ k l r. zero_string };

    ghost joins = { λ k l r _ _ _. constant-str };

    /// The zero string, 16 bytes.
    fn pair(key: &[u8; 16], left: &[u8; 16], _right: &[u8; 16]) -> [u8; 16] {
        Self::step(key, left)
    }
}
