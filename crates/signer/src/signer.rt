//! A key in service.

ghost use Rattle.std.specs.Prelude.{◌≡◌, ℕ, ◌^◌, ◌<◌, ◌≤◌, true, length, get_or, None, slice_index, slice_index_or};
ghost use Rattle.tree.specs.Meaning.{hash_by, code_of};
ghost use Rattle.tree.specs.Nodes.{tallest};
ghost use Rattle.growth.specs.Grown.{masks_size, node_at};
ghost use Rattle.rules.specs.States.{empty_row};
ghost use Rattle.histories.specs.Histories.{serving, HasLived};

use crate::ledger::Ledger;
use codes::Code;
use growth::Origin;
use hashes::TreeHash;
use std::marker::PhantomData;

mod calls;
mod publishing;
mod tracing;

/// A key in service: what it was grown from, its root, its next leaf, and its ledger. Its type says the
/// tree hash `H` and the code `C`. It signs once with each leaf, in the order of their numbers, from
/// 0 to 2^height - 1. It is neither copied nor cloned. Only `Maker::finish` makes one.
#[derive(Drop)]
pub struct Signer<H: TreeHash, C: Code> {
    /// The seed, the hash key, the masks and the height.
    pub(crate) origin: Origin,
    /// The node at level 0.
    pub(crate) root: [u8; 16],
    /// The next leaf to be spent; 2^height where all are spent.
    pub(crate) next: u16,
    /// The stamp that each leaf was spent on.
    pub(crate) ledger: Ledger,
    pub(crate) hash: PhantomData<H>,
    pub(crate) code: PhantomData<C>,
    /// The height lies from 1 to 8.
    pub ghost tall: { (1 ≤ origin.height) × (origin.height ≤ tallest) },
    /// The next leaf is one of the tree's, or all are spent.
    pub ghost within: { next ≤ 2 ^ origin.height },
    /// The root is that of the tree which the origin gives.
    pub ghost rooted: { root ≡ node_at (hash_by H.ChainHash H.TreeHash) (code_of C.Code) origin 0 0 },
    ghost sized: { (length origin.hash_key ≡ 16) × (length origin.masks ≡ masks_size) × (length root ≡ 16) },
    /// No leaf from the next one on has a stamp.
    pub ghost fresh: { (i : ℕ) → next ≤ i → empty_row (slice_index_or ledger.rows i None) ≡ true },
    ghost seeded: { length origin.seed ≡ 16 },
    ghost bytes: { (i : ℕ) → (slice_index origin.seed i < 256)
        × (slice_index origin.hash_key i < 256) × (slice_index origin.masks i < 256) },
    /// Some begin and some history of calls lead to this signer.
    pub ghost lived: { HasLived (hash_by H.ChainHash H.TreeHash) (code_of C.Code)
        (serving (record { origin = origin; root = root; next = next; rows = ledger.rows })) },
}
