//! The work of boxcheck, from an input to an output.

ghost use Rattle.std.specs.Prelude.{OnOk, List, ℕ};
ghost use Rattle.std.specs.Io.KnownBytes.{Appends};
ghost use Rattle.orders.specs.Conditions.{RefusesByLists};
ghost use Rattle.orders.specs.Reading.{ReadUpTo};
ghost use Rattle.orders.specs.Reports.{Reported, Reports, most_read};
ghost use Rattle.orders.specs.Texts.{report_text};

use crate::{LIMIT, Source, check};
use std::io::{self, Write};

/// Reads and checks as `check` does, and prints the report on `out`, a line for the key and one for each order. It answers `Ok`
/// only where the report of all that is to be read was printed; else an error of `check`, before anything is printed, or one of
/// printing. `room` is used up.
pub fn print_report<S: Source, W: Write>(
    input: &mut S,
    room: &mut [u8; LIMIT],
    out: &mut W,
) -> io::Result<()>
    ensures printed { OnOk result ((bytes : List ℕ) × (report : Reported)
        × ReadUpTo S.gives most_read input.old bytes input.new
        × Reports bytes report × RefusesByLists bytes report
        × Appends (W.contents out.old) (W.contents out.new) (report_text report)) }
{
    let report = check(input, room)?;
    write!(out, "{report}")
}
