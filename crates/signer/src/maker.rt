//! A key that is being grown.

ghost use Rattle.std.specs.Prelude.{ℕ, ◌^◌, ◌<◌, ◌≤◌, slice_index};
ghost use Rattle.tree.specs.Meaning.{hash_by, code_of};
ghost use Rattle.tree.specs.Nodes.{tallest};
ghost use Rattle.growth.specs.Grown.{Holds};
ghost use Rattle.histories.specs.Histories.{growing, HasLived};

use codes::Code;
use growth::{NODES, Origin};
use hashes::TreeHash;
use std::marker::PhantomData;

mod calls;

/// A key that is being grown: what it is grown from, how many leaves are in, and the nodes that are
/// held meanwhile (the treehash stack). Its type says the tree hash `H` and the code `C`. It is
/// neither copied nor cloned, and has no call that signs. Only `Maker::begin` makes one.
#[derive(Drop)]
pub struct Maker<H: TreeHash, C: Code> {
    // The seed, the hash key, the masks and the height.
    origin: Origin,
    // How many leaves are in.
    grown: u16,
    // String a is what is held at level a, zero where nothing is.
    nodes: [u8; NODES],
    hash: PhantomData<H>,
    code: PhantomData<C>,
    ghost tall: { (1 ≤ origin.height) × (origin.height ≤ tallest) },
    ghost few: { grown ≤ 2 ^ origin.height },
    /// Each level holds what it should after that many leaves, and nothing else.
    pub ghost holds: { Holds (hash_by H.ChainHash H.TreeHash) (code_of C.Code) origin grown nodes },
    ghost bytes: { (i : ℕ) → (slice_index origin.seed i < 256)
        × (slice_index origin.hash_key i < 256) × (slice_index origin.masks i < 256) },
    /// Some begin and some history of calls lead to this key.
    pub ghost lived: { HasLived (hash_by H.ChainHash H.TreeHash) (code_of C.Code)
        (growing (record { origin = origin; grown = grown; nodes = nodes })) },
}
