//! Comparing nodes: parents of masked children, and the L-tree inside a leaf.

ghost use Rattle.std.specs.Prelude.{◌≡◌, ℕ, ◌+◌, ◌*◌, ◌^◌, ◌<◌, ◌≤◌, length};
ghost use Rattle.strings.specs.Strings.{string_at};
ghost use Rattle.tree.specs.Meaning.{hash_of};
ghost use Rattle.tree.specs.Nodes.{parent_at, node};
ghost use Rattle.tree.specs.Views.{parameters_of};
ghost use Rattle.growth.specs.Grown.{parameters};
ghost use Rattle.compare.specs.Search.{first_from, child_find, depth_search};
ghost use Rattle.compare.specs.Views.{traced_of};

use crate::reports::four_strings;
use crate::{Compared, Find, Sides, Subject};
use codes::Code;
use hashes::TreeHash;
use strings::{put_string, same, string_at};
use tree::Parameters;
use tree::nodes::Children;
use tree::rows::WORK;

/// The parent at a level of two children, on both sides; and the find there, where the masked
/// children differ and have one parent (`child_find` in specs/). The parent stands at `position`.
pub(crate) fn join_both<H: TreeHash>(
    parameters: &Parameters<'_>,
    level: usize,
    position: u16,
    ours: &Children,
    theirs: &Children,
) -> Compared
    requires masked { 32 * level + 32 ≤ length parameters.now.masks.now }
    requires few { level < 16 }
    ensures ours { result.sides.ours ≡ parent_at (hash_of H.TreeHash) (parameters_of parameters.now)
        level ours.now.left ours.now.right }
    ensures theirs { result.sides.theirs ≡ parent_at (hash_of H.TreeHash)
        (parameters_of parameters.now) level theirs.now.left theirs.now.right }
    ensures find { result.find ≡ child_find (hash_of H.TreeHash) (parameters_of parameters.now) level
        position ours.now.left ours.now.right theirs.now.left theirs.now.right }
{
    let ours = parameters.masked(level, ours);
    let theirs = parameters.masked(level, theirs);
    let sides = Sides {
        ours: H::pair(parameters.hash_key, &ours.left, &ours.right),
        theirs: H::pair(parameters.hash_key, &theirs.left, &theirs.right),
    };
    let alike = same(&ours.left, &theirs.left) && same(&ours.right, &theirs.right);
    let broken = same(&sides.ours, &sides.theirs) && !alike;
    let find = broken.then(|| Find {
        first: level as u16,
        second: position,
        report: four_strings(&ours.left, &ours.right, &theirs.left, &theirs.right),
    });
    Compared { sides, find }
}

// The two strings at a place of a row of pairs.
fn children_at(row: &[u8], place: usize) -> Children
    requires { 32 * place + 32 ≤ length row.now }
    ensures left { result.left ≡ string_at row.now (2 * place) }
    ensures right { result.right ≡ string_at row.now (2 * place + 1) }
{
    let left = string_at(row, 2 * place);
    let right = string_at(row, 2 * place + 1);
    Children { left, right }
}

// Writes the `n` parents at `level` of the first 2n strings of both rows over their first n
// strings, and finds the first of them that is equal on both sides while its masked children
// differ; the first parent stands at position `first`.
fn join_level<H: TreeHash>(
    parameters: &Parameters<'_>,
    level: usize,
    first: u16,
    ours: &mut [u8],
    theirs: &mut [u8],
    n: usize,
) -> Option<Find>
    requires masked { 32 * level + 32 ≤ length parameters.now.masks.now }
    requires few { level < 16 }
    requires ours { 32 * n ≤ length ours.old }
    requires theirs { 32 * n ≤ length theirs.old }
    requires places { first + n ≤ 2 ^ 16 }
    ensures ours { (k : ℕ) → k < n → string_at ours.new k
        ≡ parent_at (hash_of H.TreeHash) (parameters_of parameters.now) level
        (string_at ours.old (2 * k)) (string_at ours.old (2 * k + 1)) }
    ensures theirs { (k : ℕ) → k < n → string_at theirs.new k
        ≡ parent_at (hash_of H.TreeHash) (parameters_of parameters.now) level
        (string_at theirs.old (2 * k)) (string_at theirs.old (2 * k + 1)) }
    ensures find { result ≡ first_from (λ p. child_find (hash_of H.TreeHash)
        (parameters_of parameters.now) level (first + p) (string_at ours.old (2 * p))
        (string_at ours.old (2 * p + 1)) (string_at theirs.old (2 * p))
        (string_at theirs.old (2 * p + 1))) 0 n }
{
    let mut found = None;
    for place in 0..n {
        let our_children = children_at(ours, place);
        let their_children = children_at(theirs, place);
        let above = join_both::<H>(
            parameters,
            level,
            first + place as u16,
            &our_children,
            &their_children,
        );
        put_string(ours, place, &above.sides.ours);
        put_string(theirs, place, &above.sides.theirs);
        found = found.or(above.find);
    }
    found
}

impl<H: TreeHash, C: Code> Subject<'_, H, C> {
    /// The node of the leaf on both sides, the root of the L-tree over each of two rows with its
    /// one-time strings; and of the nodes below it, and itself, the one nearest the root that is
    /// equal on both sides while its masked children differ. The rows are used up.
    pub(crate) fn fold_both(&self, ours: &mut [u8; WORK], theirs: &mut [u8; WORK]) -> Compared
        ensures ours { result.sides.ours ≡ node
            (parent_at (hash_of H.TreeHash) (parameters (traced_of self.now).origin))
            (string_at ours.old) (traced_of self.now).origin.height C.Code.LEVELS 0 }
        ensures theirs { result.sides.theirs ≡ node
            (parent_at (hash_of H.TreeHash) (parameters (traced_of self.now).origin))
            (string_at theirs.old) (traced_of self.now).origin.height C.Code.LEVELS 0 }
        ensures find { result.find ≡ first_from (depth_search (hash_of H.TreeHash)
            (parameters (traced_of self.now).origin) self.now.leaf C.Code.LEVELS
            (string_at ours.old) (string_at theirs.old)) 0 C.Code.LEVELS }
    {
        let parameters = self.tree.origin.parameters();
        let height = self.tree.origin.height as usize;
        let mut found = None;
        for depth in (0..C::LEVELS as usize).rev() {
            let first = self.leaf << depth;
            let find = join_level::<H>(
                &parameters,
                height + depth,
                first,
                ours,
                theirs,
                1 << depth,
            );
            found = find.or(found);
        }
        let sides = Sides {
            ours: string_at(ours, 0),
            theirs: string_at(theirs, 0),
        };
        Compared { sides, find: found }
    }
}
