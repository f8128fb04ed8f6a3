//! The report of each stored input. An independent model made those named `box_HASH_CODE`; the others are edits of one of
//! them, each for a refusal. Then the longest, by readers that falter.

use crate::faltering::Faltering;
use orders::{LIMIT, check};
use std::fs::File;
use std::io::ErrorKind;

const CASES: [&str; 22] = [
    "box_1_1",
    "box_1_2",
    "box_1_3",
    "box_2_1",
    "box_2_2",
    "box_2_3",
    "box_3_1",
    "box_3_2",
    "box_3_3",
    "key_refused_6",
    "key_refused_7",
    "key_refused_8_hash",
    "key_refused_8_code",
    "key_refused_9_height",
    "key_refused_9_spare",
    "key_refused_10",
    "key_refused_7_before_8",
    "key_refused_6_before_8",
    "orders_refused",
    "zero_key",
    "cut_at_the_limit",
    "many_orders",
];

// After how many bytes a reader fails, and how.
const PLACES: [u32; 4] = [0, 1, 32_769, 65_535];

const ERRORS: [ErrorKind; 11] = [
    ErrorKind::NotFound,
    ErrorKind::PermissionDenied,
    ErrorKind::ConnectionReset,
    ErrorKind::NotConnected,
    ErrorKind::BrokenPipe,
    ErrorKind::WouldBlock,
    ErrorKind::InvalidData,
    ErrorKind::TimedOut,
    ErrorKind::UnexpectedEof,
    ErrorKind::OutOfMemory,
    ErrorKind::Other,
];

// The longest case, read by a reader that falters: its report, or the error.
fn falter(
    rt: &HostRuntime,
    room: &mut [u8; LIMIT],
    bytes: u32,
    error: ErrorKind,
) -> anyhow::Result<()> {
    let file = File::open(rt, "cut_at_the_limit.in")?;
    println!(rt; "cut_at_the_limit, failing after {bytes} bytes")?;
    match check(&mut Faltering::new(file, bytes, error), room) {
        Ok(report) => print!(rt; "{report}")?,
        Err(error) => println!(rt; "{error}")?,
    }
    Ok(())
}

pub(crate) fn run(rt: &HostRuntime) -> anyhow::Result<()> {
    let mut room = [0; LIMIT];
    for case in CASES {
        let path = format!(in rt.alloc(); "{case}.in")?;
        let mut input = File::open(rt, path.as_str())?;
        let report = check(&mut input, &mut room)?;
        println!(rt; "{case}")?;
        print!(rt; "{report}")?;
    }
    // as many bytes as are read: no read comes after them
    falter(rt, &mut room, 65_536, ErrorKind::Other)?;
    for bytes in PLACES {
        for error in ERRORS {
            falter(rt, &mut room, bytes, error)?;
        }
    }
    Ok(())
}
