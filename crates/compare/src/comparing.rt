//! Comparing a record with what the signer's seed and ledger give.

ghost use Rattle.std.specs.Prelude.{◌≡◌};
ghost use Rattle.tree.specs.Meaning.{hash_of, code_of};
ghost use Rattle.tree.specs.Rebuilt.{rebuilt};
ghost use Rattle.growth.specs.Grown.{parameters};
ghost use Rattle.compare.specs.Found.{Found};
ghost use Rattle.compare.specs.Search.{chosen, found};
ghost use Rattle.compare.specs.Views.{traced_of};

use crate::{Find, Subject, Verdict};
use codes::Code;
use hashes::TreeHash;
use tree::rows::WORK;

/// The root that a record leads to, and the verdict on it.
#[derive(Clone, Copy)]
pub struct Comparison {
    /// The root that is rebuilt from the record (`rebuilt` in the specs/ of tree).
    pub root: [u8; 16],
    /// What is found first.
    pub verdict: Verdict,
}

// The verdict on the first find that there is: a node, else a chain, else a string that was not
// revealed; ours where there is none.
fn choose(node: Option<Find>, chain: Option<Find>, unrevealed: Option<Find>) -> Verdict
    ensures { result ≡ chosen node chain unrevealed }
{
    match (node, chain, unrevealed) {
        (Some(find), _, _) => Verdict::Node(find),
        (None, Some(find), _) => Verdict::Chain(find),
        (None, None, Some(find)) => Verdict::Unrevealed(find),
        (None, None, None) => Verdict::Ours,
    }
}

impl<H: TreeHash, C: Code> Subject<'_, H, C> {
    /// Compares the record with what the signer's seed and ledger give for its leaf (`Found` in
    /// specs/ says what is found, `found` how it is searched for). It looks in this order and stops
    /// at the first find: the node nearest the root that is equal on both sides while its masked
    /// children differ; the lowest chain where two different strings step to one, at the greatest
    /// height; the lowest chain whose string was not revealed. The siblings on the signer's side
    /// are grown again from the seed. The work buffer, 4,096 bytes, is used up.
    pub fn compare(&self, work: &mut [u8; WORK]) -> Comparison
        ensures root { result.root ≡ rebuilt (hash_of H.TreeHash) (code_of C.Code)
            (parameters (traced_of self.now).origin) self.now.leaf self.now.stamp.now
            self.now.row.now }
        ensures verdict { result.verdict ≡ found (hash_of H.TreeHash)
            (code_of C.Code) (traced_of self.now) }
        ensures first { Found (hash_of H.TreeHash) (code_of C.Code)
            (traced_of self.now) result.verdict }
    {
        let mut theirs = [0; WORK];
        let chains = self.compare_chains(work, &mut theirs);
        let leaf_node = self.fold_both(work, &mut theirs);
        let root = self.climb_to_root(&leaf_node.sides, work);
        let verdict = choose(
            root.find.or(leaf_node.find),
            chains.broken,
            chains.unrevealed,
        );
        let root = root.sides.theirs;
        Comparison { root, verdict }
    }
}
