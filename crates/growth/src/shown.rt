//! What a release of a leaf shows: strings of its chains, and its authentication path.

ghost use Rattle.std.specs.Prelude.{◌≡◌, ◌+◌, ◌^◌, ◌<◌};
ghost use Rattle.tree.specs.Meaning.{hash_of, code_of};
ghost use Rattle.growth.specs.Shown.{sibling_of, shown_string};

use crate::Tree;
use codes::Code;
use hashes::TreeHash;
use tree::rows::{WORK, sibling_level};

/// The position of the other child of the same parent: the next one where `position` is even, else
/// the one before.
pub fn sibling(position: u16) -> u16
    ensures { result ≡ sibling_of position }
{
    if position % 2 == 0 {
        position + 1
    } else {
        position - 1
    }
}

impl<H: TreeHash, C: Code> Tree<'_, H, C> {
    /// The string at `place`, counted from 0, of a release of a leaf for a stamp, 16 bytes each
    /// (`shown_string` in specs/): of each chain the string at the height of the stamp's digit, and
    /// then the siblings of the authentication path, from the leaf's level up to level 1. The work
    /// buffer, 4,096 bytes, is used up.
    pub fn shown_string(
        &self,
        leaf: u16,
        stamp: &[u8; 16],
        place: usize,
        work: &mut [u8; WORK],
    ) -> [u8; 16]
        requires there { leaf < 2 ^ self.now.origin.now.height }
        requires within { place < C.Code.COUNT + self.now.origin.now.height }
        ensures { result ≡ shown_string (hash_of H.TreeHash) (code_of C.Code) self.now.origin.now
            leaf stamp.now place }
    {
        if place < C::COUNT {
            let digit = C::digit(stamp, place);
            return self.origin.chain_string::<H>(leaf, place, digit);
        }
        let level = sibling_level::<C>(self.origin.height, place);
        let above = self.origin.height as usize - level;
        self.grow_node(level, sibling(leaf >> above), work)
    }
}
