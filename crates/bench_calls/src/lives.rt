//! Parts of a key's life, from its source on, for any hash and code.

ghost use Rattle.std.specs.Prelude.{◌≡◌};
ghost use Rattle.tree.specs.Meaning.{hash_of, code_of};
ghost use Rattle.records.specs.Rules.{seen};
ghost use Rattle.signer.specs.Views.{making_of, signing_of};
ghost use Rattle.schemes.specs.Tasks.{Wrote};
ghost use Rattle.bench_calls.specs.Lives.{begun, grows, finished, served, verified, grown, grown_node, keyed, keyed_output};
ghost use Rattle.bench_calls.specs.Lives.{signed, signed_output, traced, traced_report};

use crate::source::Source;
use codes::Code;
use compare::REPORT;
use hashes::TreeHash;
use records::{LONGEST_RELEASE, Refusal};
use schemes::Task;
use signer::{Maker, Plan, Signer};
use tree::rows::WORK;
use verifier::{open, verify};

/// Opens a key record, and verifies a release record under it: the leaf. Refuses as `open`, and then as `verify`.
#[derive(Drop)]
pub struct Verify<'a> {
    /// The key record.
    pub key: &'a [u8],
    /// The stamp that the release record is to be good for.
    pub stamp: &'a [u8; 16],
    /// The release record.
    pub release: &'a [u8],
}

impl Task for Verify<'_> {
    type Output = Result<usize, Refusal>;

    ghost gives = { λ before h c result after.
        result ≡ verified h c before.key.now before.stamp.now before.release.now };

    fn run<H: TreeHash, C: Code>(&mut self) -> Result<usize, Refusal> {
        let opened = open::<H, C>(self.key)?;
        let leaf = verify::<H, C>(&opened, self.stamp, self.release)?;
        Ok(leaf as usize)
    }
}

// Plans and begins a key. Refuses with 1, `Plan`, a height outside 1 to 8.
fn begin<H: TreeHash, C: Code>(source: &Source) -> Result<Maker<H, C>, Refusal>
    ensures { seen making_of result ≡ begun source.now }
{
    let plan = Plan::new(source.height)?;
    Ok(Maker::begin(plan, source.seed, source.hash_key, source.masks))
}

// Calls grow as often as `leaves` says; where all leaves are in, it refuses, and nothing changes.
fn grow_on<H: TreeHash, C: Code>(maker: &mut Maker<H, C>, leaves: u16)
    ensures { making_of maker.new ≡ grows (hash_of H.TreeHash) (code_of C.Code)
        leaves (making_of maker.old) }
{
    let mut work = [0; WORK];
    for _ in 0..leaves {
        let _ = maker.grow(&mut work);
    }
}

/// Begins a key and grows leaves: 1 or 0, whether a node is held at the level, and its position. Refuses as `begin`.
#[derive(Drop)]
pub struct Grow<'a, 'o> {
    /// What the key is begun with.
    pub source: &'a Source,
    /// How often grow is called.
    pub leaves: u16,
    /// The level that is asked for.
    pub level: u8,
    /// The node is written here; it stays where none is held.
    pub node: &'o mut [u8; 16],
}

impl Task for Grow<'_, '_> {
    type Output = Result<(usize, u16), Refusal>;

    ghost gives = { λ before h c result after.
        (result ≡ grown h c before.source.now before.leaves before.level)
        × Wrote before.node
        (grown_node h c before.source.now before.leaves before.level before.node.now)
        after.node };

    fn run<H: TreeHash, C: Code>(&mut self) -> Result<(usize, u16), Refusal> {
        let mut maker = begin::<H, C>(self.source)?;
        grow_on::<H, C>(&mut maker, self.leaves);
        match maker.held(self.level) {
            Some(held) => {
                let string = held.1;
                *self.node = string;
                Ok((1, held.0))
            }
            None => Ok((0, 0)),
        }
    }
}

// Begins and finishes a key. Refuses as `begin`.
fn finish<H: TreeHash, C: Code>(
    source: &Source,
    work: &mut [u8; WORK],
) -> Result<Signer<H, C>, Refusal>
    ensures { seen signing_of result ≡ finished (hash_of H.TreeHash)
        (code_of C.Code) source.now }
{
    let maker = begin::<H, C>(source)?;
    Ok(maker.finish(work))
}

/// Begins and finishes a key, and writes its key record: the record's length. Refuses as `begin`, and then with 4, `Output`, an
/// output that is shorter than the record.
#[derive(Drop)]
pub struct Key<'a, 'o> {
    /// What the key is begun with.
    pub source: &'a Source,
    /// How often the record is written before it is written once more.
    pub turns: u32,
    /// The record is written at the start; all else stays, and the whole where a call refuses.
    pub out: &'o mut [u8],
}

impl Task for Key<'_, '_> {
    type Output = Result<usize, Refusal>;

    ghost gives = { λ before h c result after.
        (result ≡ keyed h c before.source.now before.turns before.out.now)
        × Wrote before.out
        (keyed_output h c before.source.now before.turns before.out.now)
        after.out };

    fn run<H: TreeHash, C: Code>(&mut self) -> Result<usize, Refusal> {
        let mut work = [0; WORK];
        let signer = finish::<H, C>(self.source, &mut work)?;
        for _ in 0..self.turns {
            let _ = signer.key(self.out);
        }
        signer.key(self.out)
    }
}

// Begins and finishes a key, and skips to a leaf; where skip refuses, the next leaf stays. Refuses as `begin`.
fn serve<H: TreeHash, C: Code>(
    source: &Source,
    leaf: u16,
    work: &mut [u8; WORK],
) -> Result<Signer<H, C>, Refusal>
    ensures { seen signing_of result ≡ served (hash_of H.TreeHash) (code_of C.Code)
        source.now leaf }
{
    let mut signer = finish::<H, C>(source, work)?;
    let _ = signer.skip(leaf);
    Ok(signer)
}

/// Begins and finishes a key, skips to a leaf where it can, and signs: the record's length, and the leaf. Refuses as `begin`;
/// then with 3, `Spent`, where the skip left no leaf, and with 4, `Output`, an output that is shorter than the record.
#[derive(Drop)]
pub struct Sign<'a, 'o> {
    /// What the key is begun with.
    pub source: &'a Source,
    /// The leaf to skip to.
    pub leaf: u16,
    /// The stamp that is signed.
    pub stamp: &'a [u8; 16],
    /// The release record is written at the start; all else stays, and the whole where a call refuses.
    pub out: &'o mut [u8],
}

impl Task for Sign<'_, '_> {
    type Output = Result<(usize, u16), Refusal>;

    ghost gives = { λ before h c result after.
        (result ≡ signed h c before.source.now before.leaf before.out.now)
        × Wrote before.out
        (signed_output h c before.source.now before.leaf before.stamp.now before.out.now)
        after.out };

    fn run<H: TreeHash, C: Code>(&mut self) -> Result<(usize, u16), Refusal> {
        let mut work = [0; WORK];
        let mut signer = serve::<H, C>(self.source, self.leaf, &mut work)?;
        signer.sign(self.stamp, self.out, &mut work)
    }
}

/// Begins and finishes a key, skips to a leaf where it can, signs the stamp `spent` there where it can, retires the key, and
/// traces a record for `stamp`: the verdict and its two numbers. Refuses as `begin`, and then as trace.
#[derive(Drop)]
pub struct Trace<'a, 'o> {
    /// What the key is begun with.
    pub source: &'a Source,
    /// The leaf to skip to.
    pub leaf: u16,
    /// The stamp that is signed.
    pub spent: &'a [u8; 16],
    /// The stamp that the record is traced for.
    pub stamp: &'a [u8; 16],
    /// The release record that is traced.
    pub release: &'a [u8],
    /// The report is written here; it stays where a call refuses.
    pub report: &'o mut [u8; REPORT],
}

impl Task for Trace<'_, '_> {
    type Output = Result<(u8, u16, u16), Refusal>;

    ghost gives = { λ before h c result after.
        (result ≡
        traced h c before.source.now before.leaf before.spent.now before.stamp.now
        before.release.now)
        × Wrote before.report
        (traced_report h c before.source.now before.leaf before.spent.now before.stamp.now
        before.release.now before.report.now)
        after.report };

    fn run<H: TreeHash, C: Code>(&mut self) -> Result<(u8, u16, u16), Refusal> {
        let mut work = [0; WORK];
        let mut signer = serve::<H, C>(self.source, self.leaf, &mut work)?;
        let mut out = [0; LONGEST_RELEASE];
        let _ = signer.sign(self.spent, &mut out, &mut work);
        let retired = signer.retire();
        retired.trace(self.stamp, self.release, self.report, &mut work)
    }
}
