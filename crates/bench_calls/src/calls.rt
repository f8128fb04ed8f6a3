//! The calls on whole keys. Hash and code go by their numbers; where one is not known, the reply says so and no more, and
//! outputs stay. Nothing of a key stays between two calls: each lives a key's life from its source on. What verifier or signer
//! refuses on the way ends the call, and the reply has its number.

ghost use Rattle.std.specs.Prelude.{◌≡◌, Err};
ghost use Rattle.schemes.specs.Names.{scheme_numbered};
ghost use Rattle.bench_calls.specs.Lives.{Numbered, HoldsOf, numbered, numbered_output, one_reply, two_reply, three_reply};
ghost use Rattle.bench_calls.specs.Lives.{verified, grown, grown_node, keyed, keyed_output};
ghost use Rattle.bench_calls.specs.Lives.{signed, signed_output, traced, traced_report};

use crate::failure::Failure;
use crate::lives::{Grow, Key, Sign, Trace, Verify};
use crate::reply::Reply;
use crate::source::Source;
use compare::REPORT;
use records::Refusal;
use schemes::{Scheme, Task};

// Does the work with the hash and the code that have these numbers. Where a number is not known the task stays as it was.
fn run_numbered<A, T: Task<Output = Result<A, Refusal>>>(
    hash: u8,
    code: u8,
    task: &mut T,
) -> Result<A, Failure>
    ensures { Numbered (scheme_numbered hash code)
        ((result ≡ Err Failure.Unknown) × (task.new ≡ task.old))
        (λ h c. HoldsOf (λ answer. T.gives task.old h c answer task.new) result) }
{
    Ok(Scheme::numbered(hash, code)?.run(task)?)
}

/// Opens a key record, and verifies a release record under it for a stamp of 16 bytes: the leaf. Refuses the key record with
/// 6, `Length`, 7, `Kind`, 8, `Parameters`, 9, `Height`, and 10, `Layout`, as `open`, and then the release record with 6,
/// `Length`, 7, `Kind`, 10, `Layout`, 11, `Leaf`, and 12, `Root`, as `verify`. Rule: `verified`.
#[unsafe(no_mangle)]
pub extern "C" fn verify_release(
    hash: u8,
    code: u8,
    key: &[u8],
    stamp: &[u8; 16],
    record: &[u8],
) -> Reply
    ensures { result ≡ one_reply
        (numbered hash code (λ h c. verified h c key.now stamp.now «record».now)) }
{
    let mut task = Verify {
        key,
        stamp,
        release: record,
    };
    Reply::from(run_numbered(hash, code, &mut task))
}

/// Begins a key and calls grow as often as `leaves` says: 1 or 0, whether a node is held at the level, and its position; `node`
/// is then its string of 16 bytes, and else stays. Refuses with 1, `Plan`, a height outside 1 to 8. Rules: `grown` and
/// `grown_node`.
#[unsafe(no_mangle)]
pub extern "C" fn grow_leaves(
    hash: u8,
    code: u8,
    source: &Source,
    leaves: u16,
    level: u8,
    node: &mut [u8; 16],
) -> Reply
    ensures answer { result ≡ two_reply
        (numbered hash code (λ h c. grown h c source.now leaves level)) }
    ensures output { node.new ≡ numbered_output hash code node.old
        (λ h c. grown_node h c source.now leaves level node.old) }
{
    let mut task = Grow {
        source,
        leaves,
        level,
        node,
    };
    Reply::from(run_numbered(hash, code, &mut task))
}

/// Begins and finishes a key, and writes its key record at the start of `out`, `turns` times and once more: the record's
/// length. Refuses with 1, `Plan`, a height outside 1 to 8, and with 4, `Output`, an output that is shorter than the record; it
/// then stays. Rules: `keyed` and `keyed_output`.
#[unsafe(no_mangle)]
pub extern "C" fn write_key(
    hash: u8,
    code: u8,
    source: &Source,
    turns: u32,
    out: &mut [u8],
) -> Reply
    ensures answer { result ≡ one_reply
        (numbered hash code (λ h c. keyed h c source.now turns out.old)) }
    ensures output { out.new ≡ numbered_output hash code out.old
        (λ h c. keyed_output h c source.now turns out.old) }
{
    let mut task = Key { source, turns, out };
    Reply::from(run_numbered(hash, code, &mut task))
}

/// Begins and finishes a key, skips to a leaf where it can, and signs the stamp of 16 bytes: the record's length, and the leaf;
/// the release record is at the start of `out`. Refuses with 1, `Plan`, a height outside 1 to 8; with 3, `Spent`, where the
/// skip left no leaf; with 4, `Output`, an output that is shorter than the record. `out` then stays. Rules: `signed` and
/// `signed_output`.
#[unsafe(no_mangle)]
pub extern "C" fn sign_release(
    hash: u8,
    code: u8,
    source: &Source,
    leaf: u16,
    stamp: &[u8; 16],
    out: &mut [u8],
) -> Reply
    ensures answer { result ≡ two_reply
        (numbered hash code (λ h c. signed h c source.now leaf out.old)) }
    ensures output { out.new ≡ numbered_output hash code out.old
        (λ h c. signed_output h c source.now leaf stamp.now out.old) }
{
    let mut task = Sign {
        source,
        leaf,
        stamp,
        out,
    };
    Reply::from(run_numbered(hash, code, &mut task))
}

/// Begins and finishes a key, skips to a leaf where it can, signs the stamp `spent` where it can, retires the key, and
/// traces a record for `stamp`, each stamp of 16 bytes: the verdict and its two numbers; `report`, of 64 bytes, shows it.
/// Refuses with 1, `Plan`, a height outside 1 to 8, and then the record with 6, `Length`, 7, `Kind`, 10, `Layout`, 11,
/// `Leaf`, and 12, `Root`, as trace; `report` then stays. Rules: `traced` and `traced_report`.
#[unsafe(no_mangle)]
pub extern "C" fn trace_release(
    hash: u8,
    code: u8,
    source: &Source,
    leaf: u16,
    spent: &[u8; 16],
    stamp: &[u8; 16],
    record: &[u8],
    report: &mut [u8; REPORT],
) -> Reply
    ensures answer { result ≡ three_reply (numbered hash code
        (λ h c. traced h c source.now leaf spent.now stamp.now «record».now)) }
    ensures output { report.new ≡ numbered_output hash code report.old
        (λ h c. traced_report h c source.now leaf spent.now stamp.now «record».now report.old) }
{
    let mut task = Trace {
        source,
        leaf,
        spent,
        stamp,
        release: record,
        report,
    };
    Reply::from(run_numbered(hash, code, &mut task))
}
