//! boxcheck: reads a key record and orders from standard input, and prints which orders would open the box.
#![tactic(auto)]

use orders::{LIMIT, print_report};

fn main(rt: HostRuntime) -> anyhow::Result<()> {
    print_report(&mut rt.stdin(), &mut [0; LIMIT], &mut rt.stdout())?;
    Ok(())
}
