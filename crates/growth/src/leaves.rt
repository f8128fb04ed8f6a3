//! The nodes of a tree, grown from its seed.

ghost use Rattle.std.specs.Prelude.{◌≡◌, ℕ, ◌^◌, ◌<◌, ◌≤◌};
ghost use Rattle.strings.specs.Strings.{string_at};
ghost use Rattle.tree.specs.Meaning.{hash_of, code_of};
ghost use Rattle.tree.specs.Rows.{most_places};
ghost use Rattle.growth.specs.Grown.{leaf_string, node_at};

use crate::Tree;
use codes::Code;
use hashes::TreeHash;
use strings::put_string;
use tree::rows::WORK;

impl<H: TreeHash, C: Code> Tree<'_, H, C> {
    // Fills the row with the one-time strings of a leaf: the tops of its chains, and zeros past
    // them.
    fn fill_leaf(&self, leaf: u16, row: &mut [u8; WORK])
        ensures { (k : ℕ) → k < most_places →
            string_at row.new k ≡ leaf_string (hash_of H.TreeHash) (code_of C.Code)
            self.now.origin.now leaf k }
    {
        *row = [0; WORK];
        for chain in 0..C::COUNT {
            let top = self.origin.chain_string::<H>(leaf, chain, C::TOP);
            put_string(row, chain, &top);
        }
    }

    /// The node of a leaf, 16 bytes: the root of the L-tree over its one-time strings. The work
    /// buffer, 4,096 bytes, is used up.
    pub fn leaf_node(&self, leaf: u16, work: &mut [u8; WORK]) -> [u8; 16]
        ensures { result ≡ node_at (hash_of H.TreeHash) (code_of C.Code) self.now.origin.now
            self.now.origin.now.height leaf }
    {
        self.fill_leaf(leaf, work);
        let parameters = self.origin.parameters();
        parameters.fold::<H>(self.origin.height as usize, C::LEVELS as usize, work)
    }

    /// The node at a level, counted from the root, and a position in it, 16 bytes: grown again from
    /// the seed, with all leaves below it (`node_at` in specs/). The work buffer, 4,096 bytes, is
    /// used up.
    pub fn grow_node(&self, level: usize, position: u16, work: &mut [u8; WORK]) -> [u8; 16]
        requires within { level ≤ self.now.origin.now.height }
        requires there { position < 2 ^ level }
        ensures { result ≡ node_at (hash_of H.TreeHash) (code_of C.Code) self.now.origin.now level
            position }
    {
        if level == self.origin.height as usize {
            return self.leaf_node(position, work);
        }
        let left = self.grow_node(level + 1, 2 * position, work);
        let right = self.grow_node(level + 1, 2 * position + 1, work);
        self.origin.parameters().parent::<H>(level, &left, &right)
    }
}
