//! cases: published vectors of the hashes, records of an independent model, and reports of stored inputs.
#![tactic(auto)]

mod boxes;
mod faltering;
mod signing;
mod vectors;

// The word for a comparison.
fn verdict(holds: bool) -> &'static str {
    if holds { "pass" } else { "fail" }
}

fn main(rt: HostRuntime) -> anyhow::Result<()> {
    vectors::run(&rt)?;
    signing::run(&rt)?;
    boxes::run(&rt)
}
