//! The nodes that are held while a tree is grown (the treehash stack).

ghost use Rattle.std.specs.Prelude.{◌≡◌, ◌+◌, ◌^◌, ◌<◌, length};
ghost use Rattle.tree.specs.Meaning.{hash_of, code_of};
ghost use Rattle.growth.specs.Grown.{Holds, nodes_size, with_leaf};

use crate::Tree;
use codes::Code;
use hashes::TreeHash;
use strings::{ZERO, put_string, string_at};
use tree::rows::WORK;

/// How many levels a tree has from its root to its leaves, at most: 0 to 8.
pub const HELD_LEVELS: usize = 9;

/// The bytes of the nodes that are held: a string of 16 bytes for each level from the root to the
/// leaves.
pub const NODES: usize = 16 * HELD_LEVELS;

impl<H: TreeHash, C: Code> Tree<'_, H, C> {
    /// Adds leaf number `grown` to a tree of which the leaves before it are in (treehash). String
    /// number a of `nodes`, 144 bytes, is what is held at level a, or zero where nothing is: the
    /// new leaf's node joins the one that is held at its level, as its right sibling, and their
    /// parent goes on above, until a level holds none (`with_leaf` in specs/). The work buffer,
    /// 4,096 bytes, is used up.
    pub fn add_leaf(&self, grown: u16, nodes: &mut [u8; NODES], work: &mut [u8; WORK])
        requires { grown < 2 ^ self.now.origin.now.height }
        ensures long { length nodes.new ≡ nodes_size }
        ensures after { nodes.new ≡ with_leaf (hash_of H.TreeHash) (code_of C.Code)
            self.now.origin.now grown nodes.old }
        ensures held { Holds (hash_of H.TreeHash) (code_of C.Code)
            self.now.origin.now grown nodes.old →
            Holds (hash_of H.TreeHash) (code_of C.Code) self.now.origin.now
            (grown + 1) nodes.new }
    {
        let parameters = self.origin.parameters();
        let mut node = self.leaf_node(grown, work);
        let mut level = self.origin.height as usize;
        let mut position = grown;
        while position % 2 == 1 {
            let left = string_at(nodes, level);
            put_string(nodes, level, &ZERO);
            level -= 1;
            node = parameters.parent::<H>(level, &left, &node);
            position /= 2;
        }
        put_string(nodes, level, &node);
    }
}
