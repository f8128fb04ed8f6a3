//! What a tree is grown from, and the tree.

ghost use Rattle.std.specs.Prelude.{◌≤◌};
ghost use Rattle.tree.specs.Nodes.{tallest};

use std::marker::PhantomData;

mod secrets;

/// The bytes of the masks of a key: a left and a right one of 16 bytes for each of 16 levels, as
/// many as there are at most.
pub const MASKS: usize = 512;

/// A seed, and the parameters of the tree that is grown from it. The tree has 2^height leaves.
#[derive(Drop)]
pub struct Origin {
    /// The seed, from which each secret comes: it stays with the signer.
    pub seed: [u8; 16],
    /// The key under which chains step and nodes join.
    pub hash_key: [u8; 16],
    /// The bitmasks of all levels: string 2a is the left mask of level a, string 2a + 1 the right
    /// one.
    pub masks: [u8; MASKS],
    /// How many levels the leaves are below the root.
    pub height: u8,
}

/// A tree of one hash and one code, no taller than its masks allow. It holds no node: each is grown
/// from the origin that it is lent.
#[derive(Drop)]
pub struct Tree<'a, H, C> {
    /// What it is grown from.
    pub origin: &'a Origin,
    /// The hash of its chains and nodes.
    pub hash: PhantomData<H>,
    /// The code of its leaves.
    pub code: PhantomData<C>,
    /// The height is 8 at most.
    pub ghost tall: { origin.now.height ≤ tallest },
}
