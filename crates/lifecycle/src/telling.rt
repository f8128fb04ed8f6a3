//! What is printed of refusals, strings and verdicts.

use compare::REPORT;
use records::Refusal;
use strings::Hex;

/// What was refused, and the refusal's number.
pub(crate) fn tell_refusal(rt: &HostRuntime, what: &str, refusal: Refusal) -> anyhow::Result<()> {
    println!(rt; "{what} is refused with {refusal}.")?;
    Ok(())
}

/// A verdict and its two numbers in words, and the strings of its report in hex.
pub(crate) fn tell_verdict(
    rt: &HostRuntime,
    (verdict, first, second): (u8, u16, u16),
    report: &[u8; REPORT],
) -> anyhow::Result<()> {
    let strings = report.as_chunks::<16>().0;
    let one = Hex(&strings[0]);
    let two = Hex(&strings[1]);
    let three = Hex(&strings[2]);
    let four = Hex(&strings[3]);
    match verdict {
        0 => println!(rt; "  Trace: verdict 0. It is ours, leaf {first}.")?,
        1 => {
            println!(rt;
                "  Trace: verdict 1. The pair hash gave way at level {first}, position {second}."
            )?;
            println!(rt; "    Ours:   {one} and {two}")?;
            println!(rt; "    Theirs: {three} and {four}")?;
        }
        2 => {
            println!(rt;
                "  Trace: verdict 2. The step hash gave way in chain {first}, at height {second}."
            )?;
            println!(rt; "    Ours:   {one}")?;
            println!(rt; "    Theirs: {two}")?;
        }
        _ => {
            println!(rt;
                "  Trace: verdict 3. Somebody knows chain {first} at height {second}, which was never revealed."
            )?;
            println!(rt; "    It is   {one}")?;
        }
    }
    Ok(())
}
