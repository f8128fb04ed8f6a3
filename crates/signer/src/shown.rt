//! The row of a release, grown again from the seed.

ghost use Rattle.std.specs.Prelude.{◌+◌, ◌^◌, ◌<◌};
ghost use Rattle.tree.specs.Meaning.{hash_of, code_of};
ghost use Rattle.growth.specs.Shown.{shown_string};

use codes::Code;
use growth::Tree;
use hashes::TreeHash;
use records::ReleaseRow;
use tree::rows::WORK;

/// What a release of a leaf shows for a stamp: a string of each chain, and then the authentication
/// path.
#[derive(Drop)]
pub(crate) struct Shown<'t, 's, H, C> {
    /// What the strings are grown from.
    pub tree: Tree<'t, H, C>,
    /// The leaf, one of the tree's.
    pub leaf: u16,
    /// The stamp, whose digits are the heights on the chains.
    pub stamp: &'s [u8; 16],
    pub ghost there: { leaf < 2 ^ tree.origin.now.height },
}

impl<H: TreeHash, C: Code> ReleaseRow for Shown<'_, '_, H, C> {
    ghost count = { λ shown. C.COUNT + shown.tree.origin.now.height };

    ghost strings = { λ shown. shown_string (hash_of H.TreeHash) (code_of C.Code)
        shown.tree.origin.now shown.leaf shown.stamp.now };

    /// String `k`, 16 bytes. The work buffer is used up.
    fn string(&self, k: usize, work: &mut [u8; WORK]) -> [u8; 16] {
        self.tree.shown_string(self.leaf, self.stamp, k, work)
    }
}
