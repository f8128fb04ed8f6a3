//! A report: four strings in one buffer.

ghost use Rattle.std.specs.Prelude.{◌≡◌, ◌++◌};

use crate::REPORT;
use strings::put;

/// Four strings of 16 bytes, one after another.
pub(crate) fn four_strings(a: &[u8; 16], b: &[u8; 16], c: &[u8; 16], d: &[u8; 16]) -> [u8; REPORT]
    ensures { result ≡ a.now ++ (b.now ++ (c.now ++ d.now)) }
{
    let mut report = [0; REPORT];
    put(&mut report, 0, a);
    put(&mut report, 16, b);
    put(&mut report, 32, c);
    put(&mut report, 48, d);
    report
}
