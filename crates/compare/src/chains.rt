//! Comparing the hash chains of a leaf: the signer's and those that the record leads to.

ghost use Rattle.std.specs.Prelude.{◌≡◌, ℕ, ◌-◌, ◌<◌, ◌≤◌};
ghost use Rattle.strings.specs.Strings.{string_at};
ghost use Rattle.tree.specs.Meaning.{hash_of, code_of};
ghost use Rattle.tree.specs.Nodes.{raise};
ghost use Rattle.tree.specs.Rows.{most_places};
ghost use Rattle.growth.specs.Grown.{leaf_string};
ghost use Rattle.compare.specs.Search.{last_from, step_find, unrevealed_find, height_search};
ghost use Rattle.compare.specs.Search.{unrevealed_find_at, chain_search, unrevealed_search};
ghost use Rattle.compare.specs.Sides.{revealed_height, our_chain, their_chain, their_one_time};
ghost use Rattle.compare.specs.Views.{traced_of};

use crate::reports::four_strings;
use crate::{Compared, Find, Sides, Subject};
use codes::Code;
use hashes::{ChainHash, TreeHash};
use strings::{ZERO, put_string, same};
use tree::rows::{WORK, chain_in};

// One step up a chain on both sides, from two strings at a height; and the find there, where two
// different strings step to one (`step_find` in specs/).
fn step_both<H: ChainHash>(key: &[u8; 16], chain: u16, height: u8, below: &Sides) -> Compared
    ensures ours { result.sides.ours ≡ H.ChainHash.steps key.now below.now.ours }
    ensures theirs { result.sides.theirs ≡ H.ChainHash.steps key.now below.now.theirs }
    ensures find { result.find ≡ step_find (H.ChainHash.steps key.now) chain height
        below.now.ours below.now.theirs }
{
    let ours = H::step(key, &below.ours);
    let theirs = H::step(key, &below.theirs);
    let broken = same(&ours, &theirs) && !same(&below.ours, &below.theirs);
    let find = broken.then(|| Find {
        first: chain,
        second: height as u16,
        report: four_strings(&below.ours, &below.theirs, &ZERO, &ZERO),
    });
    let sides = Sides { ours, theirs };
    Compared { sides, find }
}

// Both sides of a chain raised from one height to another; and the find at the greatest height
// that has one.
fn raise_both<H: ChainHash>(key: &[u8; 16], chain: u16, from: u8, to: u8, start: &Sides) -> Compared
    requires { from ≤ to }
    ensures ours { result.sides.ours ≡ raise (H.ChainHash.steps key.now) (to - from)
        start.now.ours }
    ensures theirs { result.sides.theirs ≡ raise (H.ChainHash.steps key.now) (to - from)
        start.now.theirs }
    ensures find { result.find ≡ last_from (λ e. step_find (H.ChainHash.steps key.now) chain e
        (raise (H.ChainHash.steps key.now) (e - from) start.now.ours)
        (raise (H.ChainHash.steps key.now) (e - from) start.now.theirs)) from (to - from) }
{
    let mut sides = *start;
    let mut find = None;
    for height in from..to {
        let above = step_both::<H>(key, chain, height, &sides);
        sides = above.sides;
        find = above.find.or(find);
    }
    Compared { sides, find }
}

// The stamp's digit at a place, which never exceeds the top digit.
fn digit_of<C: Code>(stamp: &[u8; 16], place: usize) -> u8
    ensures value { result ≡ C.Code.digits stamp.now place }
    ensures within { result ≤ C.Code.TOP }
{
    C::digit(stamp, place)
}

// The least height of a chain that the leaf's row of the ledger has revealed: the digit of the
// stamp in it, or the top digit where the row is empty.
fn revealed_height<C: Code>(entered: &Option<[u8; 16]>, chain: usize) -> u8
    ensures { result ≡ revealed_height (code_of C.Code) entered.now chain }
{
    match entered {
        Some(stamp) => C::digit(stamp, chain),
        None => C::TOP,
    }
}

// The find of a signer's string, at the height of the stamp's digit, that was not revealed; none
// where it was.
fn find_unrevealed<C: Code>(
    entered: &Option<[u8; 16]>,
    chain: u16,
    digit: u8,
    string: &[u8; 16],
) -> Option<Find>
    ensures { result ≡ unrevealed_find chain digit (revealed_height (code_of C.Code) entered.now chain)
        string.now }
{
    let unrevealed = digit < revealed_height::<C>(entered, chain as usize);
    unrevealed.then(|| Find {
        first: chain,
        second: digit as u16,
        report: four_strings(string, &ZERO, &ZERO, &ZERO),
    })
}

/// What comparing one chain of the leaf gives.
#[derive(Clone, Copy)]
pub(crate) struct Chain {
    /// Its top on both sides.
    pub top: Sides,
    /// The greatest height at which two different strings step to one.
    pub broken: Option<Find>,
    /// The signer's string at the height of the stamp's digit, where that was not revealed.
    pub unrevealed: Option<Find>,
}

/// What comparing all chains of a leaf gives.
#[derive(Clone, Copy)]
pub(crate) struct Chains {
    /// The break of the first chain that has one.
    pub broken: Option<Find>,
    /// The first chain whose string was not revealed.
    pub unrevealed: Option<Find>,
}

impl<H: TreeHash, C: Code> Subject<'_, H, C> {
    // Compares a chain of the leaf: from the stamp's digit up to the top, the signer's strings and
    // those over the record's string.
    fn compare_chain(&self, chain: u16) -> Chain
        requires { chain < C.Code.COUNT }
        ensures ours { result.top.ours ≡ our_chain (hash_of H.TreeHash)
            (code_of C.Code) (traced_of self.now) chain C.Code.TOP }
        ensures theirs { result.top.theirs ≡ their_chain (hash_of H.TreeHash)
            (code_of C.Code) (traced_of self.now) chain C.Code.TOP }
        ensures broken { result.broken ≡ height_search (hash_of H.TreeHash)
            (code_of C.Code) (traced_of self.now) chain }
        ensures unrevealed { result.unrevealed ≡ unrevealed_find_at (hash_of H.TreeHash)
            (code_of C.Code) (traced_of self.now) chain }
    {
        let place = chain as usize;
        let digit = digit_of::<C>(self.stamp, place);
        let origin = self.tree.origin;
        let ours = origin.chain_string::<H>(self.leaf, place, digit);
        let theirs = chain_in(self.row, place);
        let unrevealed = find_unrevealed::<C>(&self.entered, chain, digit, &ours);
        let start = Sides { ours, theirs };
        let top = raise_both::<H>(&origin.hash_key, chain, digit, C::TOP, &start);
        Chain {
            top: top.sides,
            broken: top.find,
            unrevealed,
        }
    }

    /// Compares the chains of the leaf, and fills two rows with its one-time strings, the tops of
    /// the chains: the signer's, and those that the record leads to.
    pub(crate) fn compare_chains(&self, ours: &mut [u8; WORK], theirs: &mut [u8; WORK]) -> Chains
        ensures ours { (k : ℕ) → k < most_places →
            string_at ours.new k ≡ leaf_string (hash_of H.TreeHash) (code_of C.Code)
            (traced_of self.now).origin self.now.leaf k }
        ensures theirs { (k : ℕ) → k < most_places →
            string_at theirs.new k ≡ their_one_time (hash_of H.TreeHash)
            (code_of C.Code) (traced_of self.now) k }
        ensures broken { result.broken ≡ chain_search (hash_of H.TreeHash)
            (code_of C.Code) (traced_of self.now) }
        ensures unrevealed { result.unrevealed ≡ unrevealed_search (hash_of H.TreeHash)
            (code_of C.Code) (traced_of self.now) }
    {
        *ours = [0; WORK];
        *theirs = [0; WORK];
        let mut broken = None;
        let mut unrevealed = None;
        for place in 0..C::COUNT {
            let chain = self.compare_chain(place as u16);
            put_string(ours, place, &chain.top.ours);
            put_string(theirs, place, &chain.top.theirs);
            broken = broken.or(chain.broken);
            unrevealed = unrevealed.or(chain.unrevealed);
        }
        Chains { broken, unrevealed }
    }
}
