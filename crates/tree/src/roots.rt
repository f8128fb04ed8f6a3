//! The root that a leaf number, a stamp and a row of strings lead to.

ghost use Rattle.std.specs.Prelude.{◌≡◌, ◌+◌, ◌*◌, ◌≤◌, length};
ghost use Rattle.tree.specs.Meaning.{hash_of, code_of};
ghost use Rattle.tree.specs.Rebuilt.{rebuilt};
ghost use Rattle.tree.specs.Views.{parameters_of};

use crate::Parameters;
use crate::chains::fill_one_time_strings;
use crate::rows::WORK;
use codes::Code;
use hashes::TreeHash;

impl Parameters<'_> {
    /// The root that leaf number `leaf` leads to (`rebuilt` in specs/). The row has a string of 16
    /// bytes for each chain, at the height of the stamp's digit, and then the siblings of the
    /// authentication path, from the leaf's level up to level 1. The chains are raised to their
    /// tops, the tops folded to the leaf's node, and from there the path climbed.
    pub fn rebuild_root<H: TreeHash, C: Code>(
        &self,
        leaf: u16,
        stamp: &[u8; 16],
        row: &[u8],
    ) -> [u8; 16]
        requires masked { 32 * (self.now.height + C.Code.LEVELS) ≤ length self.now.masks.now }
        requires within { 16 * (C.Code.COUNT + self.now.height) ≤ length row.now }
        ensures { result ≡ rebuilt (hash_of H.TreeHash) (code_of C.Code) (parameters_of self.now)
            leaf stamp.now row.now }
    {
        let mut strings = [0; WORK];
        fill_one_time_strings::<H, C>(self.hash_key, stamp, row, &mut strings);
        let start = self.fold::<H>(self.height as usize, C::LEVELS as usize, &mut strings);
        self.climb_path::<H, C>(leaf, &start, row)
    }
}
