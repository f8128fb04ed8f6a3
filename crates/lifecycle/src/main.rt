//! lifecycle: the life of a key, told step by step.
#![tactic(auto)]

use codes::Winternitz4;
use compare::REPORT;
use growth::MASKS;
use hashes::Practice;
use signer::{Maker, Plan, Signer};
use telling::{tell_refusal, tell_verdict};
use tree::rows::WORK;
use verifier::{open, verify};

mod tampering;
mod telling;

// The chains of a leaf: as many digits as the code writes.
const CHAINS: usize = 35;

// The bytes of a release record of this key, whose height is 2: 8 + 16 (CHAINS + 2).
const RELEASE: usize = 600;

// The bytes of the room for the key record, which has 298.
const ROOM: usize = 1024;

// What the words of the story mean.
const WORDS: [&str; 4] = [
    "A signer grows a key: a tree whose leaves each sign one order. An order is known by its stamp of 16 bytes.",
    "A leaf has chains of strings, each stepped from the one below. A record for a stamp shows one string of each chain,",
    "at the height of the stamp's digit. The signer's ledger has a row for each leaf, with the stamp that it signed.",
    "Nodes of the tree are joined in pairs: level 0 is the root, level 2 the leaves, level 8 the tops of their chains.",
];

// The same seed, hash key and masks each time: whoever has them can make every record of the key.
fn begun(plan: Plan) -> Maker<Practice, Winternitz4> {
    Maker::begin(plan, [5; 16], [9; 16], [1; MASKS])
}

// The key record is written; an output that is too short is refused.
fn publish<'a>(
    rt: &HostRuntime,
    key: &Signer<Practice, Winternitz4>,
    out: &'a mut [u8; ROOM],
) -> anyhow::Result<&'a [u8]> {
    if let Err(refusal) = key.key(&mut out[0..100]) {
        tell_refusal(rt, "Writing the key record into 100 bytes", refusal)?;
    }
    let length = key.key(out).unwrap_or(0).min(ROOM);
    println!(rt; "The key record has {length} bytes. It goes into the boxes; it holds no secret.")?;
    Ok(&out[..length])
}

// A leaf is passed over, and there is no way back.
fn skip(rt: &HostRuntime, key: &mut Signer<Practice, Winternitz4>) -> anyhow::Result<()> {
    if let Ok(next) = key.skip(3) {
        println!(rt;
            "Leaf 2 is skipped: the next leaf is {next}, and row 2 of the ledger stays empty."
        )?;
    }
    if let Err(refusal) = key.skip(2) {
        tell_refusal(rt, "Going back to leaf 2", refusal)?;
    }
    Ok(())
}

// A box: it has the key record and nothing else.
#[derive(Clone, Copy)]
struct Locked<'a> {
    rt: &'a HostRuntime,
    record: &'a [u8],
}

impl Locked<'_> {
    // Hands a release record to the verifier.
    fn check(&self, order: u8, release: &[u8; RELEASE]) -> anyhow::Result<()> {
        let opened = open::<Practice, Winternitz4>(self.record)?;
        match verify::<Practice, Winternitz4>(&opened, &[order; 16], release) {
            Ok(leaf) => println!(self.rt; "  The verifier opens the box: leaf {leaf}.")?,
            Err(refusal) => tell_refusal(self.rt, "  Opening the box", refusal)?,
        }
        Ok(())
    }
}

// Who grows the key and signs with it.
#[derive(Drop)]
struct Depot<'a> {
    rt: &'a HostRuntime,
    plan: Plan,
    work: [u8; WORK],
}

impl Depot<'_> {
    // A key of four leaves is begun, and half of it grown.
    fn begin(&mut self) -> anyhow::Result<Maker<Practice, Winternitz4>> {
        println!(self.rt;
            "A key of height {} is begun under the practice hash, with Winternitz digits of four bits.",
            self.plan.height()
        )?;
        let mut maker = begun(self.plan);
        for _ in 0..2u8 {
            match maker.grow(&mut self.work) {
                Ok(grown) => println!(self.rt; "A leaf is grown: {grown} in.")?,
                Err(refusal) => tell_refusal(self.rt, "Growing", refusal)?,
            }
        }
        Ok(maker)
    }

    // An order is signed, and the record handed to a box.
    fn release(
        &mut self,
        key: &mut Signer<Practice, Winternitz4>,
        locked: Locked<'_>,
        order: u8,
    ) -> anyhow::Result<[u8; RELEASE]> {
        let mut out = [0; RELEASE];
        match key.sign(&[order; 16], &mut out, &mut self.work) {
            Ok((length, leaf)) => {
                println!(self.rt;
                    "The order with stamp {order} is signed with leaf {leaf}: a release record of {length} bytes."
                )?;
                locked.check(order, &out)?;
            }
            Err(refusal) => tell_refusal(self.rt, "Signing, with no leaf left,", refusal)?,
        }
        Ok(out)
    }

    // A record that somebody makes with the stolen seed, for a leaf and an order of their own.
    fn forge(&mut self, leaf: u16, order: u8) -> [u8; RELEASE] {
        let mut twin = begun(self.plan).finish(&mut self.work);
        let mut out = [0; RELEASE];
        let _ = twin.skip(leaf);
        let _ = twin.sign(&[order; 16], &mut out, &mut self.work);
        out
    }

    // What tracing a record answers.
    fn trace(
        &mut self,
        key: &Signer<Practice, Winternitz4>,
        order: u8,
        release: &[u8; RELEASE],
    ) -> anyhow::Result<()> {
        let mut report = [0; REPORT];
        match key.trace(&[order; 16], release, &mut report, &mut self.work) {
            Ok(verdict) => tell_verdict(self.rt, verdict, &report),
            Err(refusal) => tell_refusal(self.rt, "  Tracing", refusal),
        }
    }

    // Records come back: the first as it was, the others tampered with or forged. The verifier opens
    // for all of them but the last.
    fn specimens(
        &mut self,
        key: &Signer<Practice, Winternitz4>,
        locked: Locked<'_>,
        first: &[u8; RELEASE],
        second: &[u8; RELEASE],
    ) -> anyhow::Result<()> {
        println!(self.rt; "The record of leaf 0 comes back as it was.")?;
        self.trace(key, 1, first)?;
        println!(self.rt; "It comes back with a bit of its first string turned.")?;
        let mut turned = *first;
        tampering::step_twin(&mut turned, 0);
        locked.check(1, &turned)?;
        self.trace(key, 1, &turned)?;
        println!(self.rt; "The record of leaf 1 comes back with its first two strings shifted.")?;
        let mut shifted = *second;
        tampering::pair_twin(&mut shifted, 0);
        locked.check(255, &shifted)?;
        self.trace(key, 255, &shifted)?;
        println!(self.rt; "A record of leaf 0 comes back for stamp 7, which was never signed.")?;
        let forged = self.forge(0, 7);
        locked.check(7, &forged)?;
        self.trace(key, 7, &forged)?;
        println!(self.rt; "A record of leaf 0 comes back with a string of its way up changed.")?;
        let mut cut = *first;
        tampering::step_twin(&mut cut, CHAINS);
        locked.check(1, &cut)?;
        self.trace(key, 1, &cut)
    }
}

fn main(rt: HostRuntime) -> anyhow::Result<()> {
    for line in WORDS {
        println!(rt; "{line}")?;
    }
    if let Err(refusal) = Plan::new(9) {
        tell_refusal(&rt, "A plan of height 9", refusal)?;
    }
    let mut depot = Depot {
        rt: &rt,
        plan: Plan::new(2)?,
        work: [0; WORK],
    };
    let maker = depot.begin()?;
    let mut key = maker.finish(&mut depot.work);
    println!(rt; "The leaves that lacked are grown, and the key is in service.")?;
    let mut out = [0; ROOM];
    let record = publish(&rt, &key, &mut out)?;
    let locked = Locked { rt: &rt, record };
    let first = depot.release(&mut key, locked, 1)?;
    let second = depot.release(&mut key, locked, 255)?;
    skip(&rt, &mut key)?;
    let _ = depot.release(&mut key, locked, 3)?;
    let _ = depot.release(&mut key, locked, 4)?;
    depot.specimens(&key, locked, &first, &second)?;
    let retired = key.retire();
    println!(rt; "The key is retired: it signs no more, and still traces.")?;
    println!(rt; "The record of leaf 0 comes back once more.")?;
    depot.trace(&retired, 1, &first)?;
    println!(rt; "A record of leaf 2, which was skipped, comes back for stamp 0.")?;
    let forged = depot.forge(2, 0);
    depot.trace(&retired, 0, &forged)
}
