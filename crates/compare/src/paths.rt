//! Comparing the way from the leaf to the root, along the authentication path.

ghost use Rattle.std.specs.Prelude.{◌≡◌, ◌+◌, ◌-◌, ◌/◌, ◌%◌, ◌^◌, ◌<◌, if◌then◌else◌, nat_eq};
ghost use Rattle.tree.specs.Meaning.{hash_of, code_of};
ghost use Rattle.compare.specs.Search.{first_from, node_find_at, level_search};
ghost use Rattle.compare.specs.Sides.{our_node, their_node};
ghost use Rattle.compare.specs.Views.{traced_of};

use crate::pairs::join_both;
use crate::{Compared, Sides, Subject};
use codes::Code;
use growth::sibling;
use hashes::TreeHash;
use tree::nodes::Children;
use tree::rows::{WORK, sibling_in};

impl<H: TreeHash, C: Code> Subject<'_, H, C> {
    // One level up on both sides: the parent at `level` of the node at `position` on the way up
    // from the leaf, and of its sibling, which the signer's side grows and the record has. The work
    // buffer is used up.
    fn climb_one(
        &self,
        level: usize,
        position: u16,
        node: &Sides,
        work: &mut [u8; WORK],
    ) -> Compared
        requires under { level < self.now.tree.origin.now.height }
        requires place { position ≡ self.now.leaf / 2 ^ (self.now.tree.origin.now.height - (level + 1)) }
        requires ours { node.now.ours ≡ our_node (hash_of H.TreeHash) (code_of C.Code)
            (traced_of self.now) (level + 1) position }
        requires theirs { node.now.theirs ≡ their_node (hash_of H.TreeHash)
            (code_of C.Code) (traced_of self.now) (level + 1) position }
        ensures ours { result.sides.ours ≡ our_node (hash_of H.TreeHash)
            (code_of C.Code) (traced_of self.now) level (position / 2) }
        ensures theirs { result.sides.theirs ≡ their_node (hash_of H.TreeHash)
            (code_of C.Code) (traced_of self.now) level (position / 2) }
        ensures find { result.find ≡ node_find_at (hash_of H.TreeHash)
            (code_of C.Code) (traced_of self.now) level (position / 2) }
    {
        let our_sibling = self.tree.grow_node(level + 1, sibling(position), work);
        let height = self.tree.origin.height;
        let their_sibling = sibling_in::<C>(height, self.row, level + 1);
        let our_children = Children::in_order(position, &node.ours, &our_sibling);
        let their_children = Children::in_order(position, &node.theirs, &their_sibling);
        let parameters = self.tree.origin.parameters();
        join_both::<H>(
            &parameters,
            level,
            position / 2,
            &our_children,
            &their_children,
        )
    }

    /// The root on both sides, from the leaf's node on both; and of the nodes on the way, the one
    /// nearest the root that is equal on both sides while its masked children differ. The work
    /// buffer is used up.
    pub(crate) fn climb_to_root(&self, leaf_node: &Sides, work: &mut [u8; WORK]) -> Compared
        requires ours { leaf_node.now.ours ≡ our_node (hash_of H.TreeHash)
            (code_of C.Code) (traced_of self.now) self.now.tree.origin.now.height self.now.leaf }
        requires theirs { leaf_node.now.theirs ≡ their_node (hash_of H.TreeHash)
            (code_of C.Code) (traced_of self.now) self.now.tree.origin.now.height self.now.leaf }
        ensures ours { result.sides.ours ≡ our_node (hash_of H.TreeHash)
            (code_of C.Code) (traced_of self.now) 0 0 }
        ensures theirs { result.sides.theirs ≡ their_node (hash_of H.TreeHash)
            (code_of C.Code) (traced_of self.now) 0 0 }
        ensures find { result.find ≡ first_from (level_search (hash_of H.TreeHash)
            (code_of C.Code) (traced_of self.now)) 0 self.now.tree.origin.now.height }
    {
        let height = self.tree.origin.height as usize;
        let mut sides = *leaf_node;
        let mut find = None;
        let mut position = self.leaf;
        for level in (0..height).rev() {
            let above = self.climb_one(level, position, &sides, work);
            sides = above.sides;
            find = above.find.or(find);
            position /= 2;
        }
        Compared { sides, find }
    }
}
