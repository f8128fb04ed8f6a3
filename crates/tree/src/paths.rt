//! The authentication path from a leaf to the root.

ghost use Rattle.std.specs.Prelude.{◌≡◌, ◌+◌, ◌*◌, ◌≤◌, length};
ghost use Rattle.tree.specs.Meaning.{hash_of};
ghost use Rattle.tree.specs.Nodes.{parent_at, above, climb};
ghost use Rattle.tree.specs.Rows.{sibling_in};
ghost use Rattle.tree.specs.Views.{parameters_of};

use crate::Parameters;
use crate::nodes::Children;
use crate::rows::sibling_in;
use codes::Code;
use hashes::TreeHash;

impl Parameters<'_> {
    /// The parent at `level` of a node, which stands at `position` one level below, and of its
    /// sibling, 16 bytes each (`above` in specs/).
    pub fn parent_above<H: TreeHash>(
        &self,
        level: usize,
        position: u16,
        node: &[u8; 16],
        sibling: &[u8; 16],
    ) -> [u8; 16]
        requires { 32 * level + 32 ≤ length self.now.masks.now }
        ensures { result ≡ above (parent_at (hash_of H.TreeHash) (parameters_of self.now)) level
            position node.now sibling.now }
    {
        let children = Children::in_order(position, node, sibling);
        self.parent::<H>(level, &children.left, &children.right)
    }

    /// The root over leaf number `leaf`, whose node is `start` (`climb` in specs/). `row` is the
    /// row of a release of that leaf: after its chains it has the siblings of the authentication
    /// path.
    pub fn climb_path<H: TreeHash, C: Code>(
        &self,
        leaf: u16,
        start: &[u8; 16],
        row: &[u8],
    ) -> [u8; 16]
        requires masked { 32 * self.now.height ≤ length self.now.masks.now }
        requires within { 16 * (C.Code.COUNT + self.now.height) ≤ length row.now }
        ensures { result ≡ climb (parent_at (hash_of H.TreeHash) (parameters_of self.now))
            (sibling_in C.Code.COUNT self.now.height row.now) self.now.height leaf start.now }
    {
        let mut node = *start;
        let mut position = leaf;
        for level in (0..self.height as usize).rev() {
            let sibling = sibling_in::<C>(self.height, row, level + 1);
            node = self.parent_above::<H>(level, position, &node, &sibling);
            position /= 2;
        }
        node
    }
}
