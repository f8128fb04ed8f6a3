//! Nodes of a Merkle tree with bitmasks: two masked children make a parent, and a row of strings
//! folds to its root.

ghost use Rattle.std.specs.Prelude.{◌≡◌, ℕ, ◌+◌, ◌*◌, ◌%◌, ◌^◌, ◌<◌, ◌≤◌, if◌then◌else◌, length, nat_eq};
ghost use Rattle.strings.specs.Strings.{xor, string_at};
ghost use Rattle.tree.specs.Meaning.{hash_of};
ghost use Rattle.tree.specs.Nodes.{parent_at, node};
ghost use Rattle.tree.specs.Views.{parameters_of};

use crate::Parameters;
use hashes::TreeHash;
use strings::{put_string, string_at, xor};

/// Two children of one parent, 16 bytes each.
#[derive(Clone, Copy)]
pub struct Children {
    /// The child at the even position.
    pub left: [u8; 16],
    /// The child at the odd position, beside it.
    pub right: [u8; 16],
}

impl Children {
    /// A node at `position` and its sibling, as children of their parent: the node is the left one
    /// where its position is even, else the right one.
    pub fn in_order(position: u16, node: &[u8; 16], sibling: &[u8; 16]) -> Children
        ensures left { result.left ≡ (if nat_eq (position % 2) 0 then node.now else sibling.now) }
        ensures right { result.right ≡ (if nat_eq (position % 2) 0 then sibling.now else node.now) }
    {
        let (left, right) = if position % 2 == 0 {
            (*node, *sibling)
        } else {
            (*sibling, *node)
        };
        Children { left, right }
    }
}

impl Parameters<'_> {
    /// Two children under the bitmasks of `level`: each is joined by exclusive or with the mask of
    /// its side. The left one is string number 2 * level of the masks, the right one is after it.
    pub fn masked(&self, level: usize, children: &Children) -> Children
        requires { 32 * level + 32 ≤ length self.now.masks.now }
        ensures left { result.left ≡ xor children.now.left
            (string_at self.now.masks.now (2 * level)) }
        ensures right { result.right ≡ xor children.now.right
            (string_at self.now.masks.now (2 * level + 1)) }
    {
        let left = xor(&children.left, &string_at(self.masks, 2 * level));
        let right = xor(&children.right, &string_at(self.masks, 2 * level + 1));
        Children { left, right }
    }

    /// The parent at `level` of two children, 16 bytes each: both are masked as `masked` does, and
    /// then joined by the hash under the hash key (`parent_at` in specs/).
    pub fn parent<H: TreeHash>(&self, level: usize, left: &[u8; 16], right: &[u8; 16]) -> [u8; 16]
        requires { 32 * level + 32 ≤ length self.now.masks.now }
        ensures { result ≡ parent_at (hash_of H.TreeHash) (parameters_of self.now) level left.now
            right.now }
    {
        let children = Children {
            left: *left,
            right: *right,
        };
        let masked = self.masked(level, &children);
        H::pair(self.hash_key, &masked.left, &masked.right)
    }

    /// Writes the `n` parents at `level` of the first 2n strings of `row` over its first n strings:
    /// of each two neighbours the parent. Nothing is promised of the strings after them.
    pub fn fold_level<H: TreeHash>(&self, level: usize, row: &mut [u8], n: usize)
        requires masked { 32 * level + 32 ≤ length self.now.masks.now }
        requires within { 32 * n ≤ length row.old }
        ensures { (k : ℕ) → k < n → string_at row.new k
            ≡ parent_at (hash_of H.TreeHash) (parameters_of self.now) level
            (string_at row.old (2 * k)) (string_at row.old (2 * k + 1)) }
    {
        for place in 0..n {
            let left = string_at(row, 2 * place);
            let right = string_at(row, 2 * place + 1);
            put_string(row, place, &self.parent::<H>(level, &left, &right));
        }
    }

    /// The node at `level` over the first 2^levels strings of `row`, which lie `levels` below it
    /// (`node` in specs/): the row is folded `levels` times, each time under the masks of the level
    /// above it. Over a leaf's one-time strings this is the L-tree. The row is used up.
    pub fn fold<H: TreeHash>(&self, level: usize, levels: usize, row: &mut [u8]) -> [u8; 16]
        requires masked { 32 * (level + levels) ≤ length self.now.masks.now }
        requires within { 16 * 2 ^ levels ≤ length row.old }
        requires few { levels ≤ 8 }
        ensures { result ≡ node (parent_at (hash_of H.TreeHash) (parameters_of self.now))
            (string_at row.old) level levels 0 }
    {
        for depth in (0..levels).rev() {
            self.fold_level::<H>(level + depth, row, 1 << depth);
        }
        string_at(row, 0)
    }
}
