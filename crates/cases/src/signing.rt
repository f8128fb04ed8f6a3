//! Grows the key of each case, signs, and compares both records with those that an independent model wrote.

ghost use Rattle.std.specs.Prelude.{⊤};

use crate::verdict;
use anyhow::anyhow;
use codes::Code;
use growth::MASKS;
use hashes::TreeHash;
use records::{LONGEST_RELEASE, Refusal};
use schemes::{Scheme, Task};
use signer::{Maker, Plan, Signer};
use std::fs;
use tree::rows::WORK;
use verifier::{open, verify};

// What a key is grown from, a leaf and a stamp; and then the key record that they give, and the release record of the leaf for
// the stamp.
#[derive(Clone, Copy)]
struct Case<'a> {
    height: u8,
    seed: &'a [u8; 16],
    hash_key: &'a [u8; 16],
    masks: &'a [u8; MASKS],
    leaf: u8,
    stamp: &'a [u8; 16],
    records: &'a [u8],
}

impl<'a> Case<'a> {
    fn read(bytes: &'a [u8]) -> Option<Case<'a>> {
        let (height, rest) = bytes.split_first()?;
        let (seed, rest) = rest.split_first_chunk()?;
        let (hash_key, rest) = rest.split_first_chunk()?;
        let (masks, rest) = rest.split_first_chunk()?;
        let (leaf, rest) = rest.split_first()?;
        let (stamp, records) = rest.split_first_chunk()?;
        Some(Case {
            height: *height,
            seed,
            hash_key,
            masks,
            leaf: *leaf,
            stamp,
            records,
        })
    }

    // The key of the case.
    fn grown<H: TreeHash, C: Code>(&self) -> Result<Signer<H, C>, Refusal> {
        let plan = Plan::new(self.height)?;
        let mut work = [0; WORK];
        Ok(Maker::begin(plan, *self.seed, *self.hash_key, *self.masks).finish(&mut work))
    }

    // Whether the case has this record after `at` bytes of records.
    fn has(&self, record: &[u8], at: usize) -> bool {
        self.records
            .get(at..)
            .is_some_and(|records| records.starts_with(record))
    }
}

// Grows the key of a case and compares its records.
#[derive(Clone, Copy)]
struct Compare<'a, 'c> {
    rt: &'a HostRuntime,
    case: Case<'c>,
}

impl Task for Compare<'_, '_> {
    type Output = anyhow::Result<()>;

    // What is printed is not said.
    ghost gives = { λ _ _ _ _ _. ⊤ };

    fn run<H: TreeHash, C: Code>(&mut self) -> anyhow::Result<()> {
        let case = self.case;
        let mut signer = case.grown::<H, C>()?;
        let mut work = [0; WORK];
        let mut key = [0; 1024];
        let mut release = [0; LONGEST_RELEASE];
        let size = signer.key(&mut key)?;
        let key = &key[..size.min(1024)];
        signer.skip(u16::from(case.leaf))?;
        let (size, _) = signer.sign(case.stamp, &mut release, &mut work)?;
        let release = &release[..size.min(LONGEST_RELEASE)];
        let key_verdict = verdict(case.has(key, 0));
        let release_verdict = verdict(case.has(release, key.len()));
        print!(self.rt; "key record {key_verdict}, release record {release_verdict}, ")?;
        let opened = open::<H, C>(key)?;
        let leaf = verify::<H, C>(&opened, case.stamp, release)?;
        println!(self.rt; "verified at leaf {leaf}")?;
        Ok(())
    }
}

// The case of the hash and the code with these numbers.
fn run_case(rt: &HostRuntime, hash: u8, code: u8) -> anyhow::Result<()> {
    let path = format!(in rt.alloc(); "records_{hash}_{code}.in")?;
    let bytes = fs::read(rt, path.as_str())?;
    let Some(case) = Case::read(bytes.as_slice()) else {
        return Err(anyhow!("a short case"));
    };
    print!(rt; "hash {hash}, code {code}, height {}: ", case.height)?;
    Scheme::numbered(hash, code)?.run(&mut Compare { rt, case })
}

pub(crate) fn run(rt: &HostRuntime) -> anyhow::Result<()> {
    for hash in 1..=3 {
        for code in 1..=3 {
            run_case(rt, hash, code)?;
        }
    }
    Ok(())
}
