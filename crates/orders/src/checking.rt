//! From bytes to a report.

ghost use Rattle.std.specs.Prelude.{◌≡◌, ◌≢◌, ℕ, ◌<◌, List, length, take, drop, IfOk, IfErr, IfSome, OnOk, Some, Err};
ghost use Rattle.std.specs.Io.KnownBytes.{Consumes};
ghost use Rattle.std.specs.IoError.{error_kind};
ghost use Rattle.records.specs.Rules.{header_rule};
ghost use Rattle.records.specs.declared.kind.RecordKind.TheVariants as kind;
ghost use Rattle.orders.specs.Conditions.{RefusesByLists};
ghost use Rattle.orders.specs.Reading.{Stopped, ReadUpTo};
ghost use Rattle.orders.specs.Reports.{Reported, CheckedBy, Unknown, Reports, most_read};
ghost use Rattle.orders.specs.Views.{reported};

use crate::reading::fill;
use crate::splitting::split_record;
use crate::{KeySummary, LIMIT, Report, Source, Tour};
use codes::Code;
use hashes::TreeHash;
use records::{RecordKind, Refusal, body_of, layout};
use schemes::{Scheme, Task};
use std::io::{self, ErrorKind};
use strings::byte_at;
use verifier::{OpenedKey, open};

// Opens a key record with any hash and code.
#[derive(Drop)]
struct Opener<'a> {
    key: &'a [u8],
}

impl<'a> Task for Opener<'a> {
    ghost use Rattle.records.specs.Rules.{open_rule};
    ghost use Rattle.orders.specs.Openings.{Opens};

    type Output = Result<(OpenedKey<'a>, KeySummary), Refusal>;

    ghost gives = { λ before h c result after.
        Opens h c (open_rule h.number c.number c.levels before.key.now) result };

    fn run<H: TreeHash, C: Code>(&mut self) -> Result<(OpenedKey<'a>, KeySummary), Refusal> {
        let key = open::<H, C>(self.key)?;
        let summary = KeySummary {
            hash: H::NUMBER,
            code: C::NUMBER,
            height: key.height(),
        };
        Ok((key, summary))
    }
}

// The report by a hash and a code.
fn check_by<'a>(scheme: Scheme, key: &'a [u8], orders: &'a [u8]) -> Report<'a>
    ensures { CheckedBy (Ok scheme) key.now orders.now (reported result) }
{
    match scheme.run(&mut Opener { key }) {
        Ok((key, summary)) => Report::Opened(Tour {
            scheme,
            key,
            summary,
            orders,
        }),
        Err(refusal) => Report::Refused(refusal),
    }
}

// The report of a key record that names a hash or code that is not known: refused with 8, `Parameters`, unless its header is
// refused first.
fn unknown(key: &[u8]) -> Report<'_>
    ensures { Unknown (header_rule kind.Key key.now) (reported result) }
{
    match body_of(key, RecordKind::Key) {
        Ok(_) => Report::Refused(Refusal::Parameters),
        Err(before) => Report::Refused(before),
    }
}

/// The report of a key record and the orders that follow it, of all bytes that it is given, by the hash and code that the
/// key record names. It refuses nothing and cannot fail: refusals stand in the report. The key record is refused, in this
/// order: with 6, `Length`, and 7, `Kind`, as by `open`; with 8, `Parameters`, for a hash or code number that is not known;
/// with 9, `Height`, and 10, `Layout`, as by `open`. An order is refused with 6, `Length`, where its stamp is cut short, and
/// then with 6, `Length`, 7, `Kind`, 10, `Layout`, 11, `Leaf`, and 12, `Root`, as by `verify`. Rules: `Reports`, and of the
/// refusals `RefusesByLists`.
pub fn report_of(input: &[u8]) -> Report<'_>
    ensures report { Reports input.now (reported result) }
    ensures only { (other : Reported) → Reports input.now other → other ≡ reported result }
    ensures refused { RefusesByLists input.now (reported result) }
{
    let (key, orders) = split_record(input);
    let hash = byte_at(key, layout::HASH_NUMBER);
    let code = byte_at(key, layout::CODE_NUMBER);
    match Scheme::numbered(hash, code) {
        Ok(scheme) => check_by(scheme, key, orders),
        Err(_) => unknown(key),
    }
}

/// Reads a key record and the orders that follow it from `input` into `room`, up to the input's end or `LIMIT` bytes; the rest
/// is left unread. The report is that of the bytes that were read, as `report_of` makes it. An error is that of a read, before
/// `LIMIT` bytes were read; a read that is interrupted is tried again, and given up after 2^64 - 1 tries, with `TimedOut`.
pub fn check<'a, S: Source>(input: &mut S, room: &'a mut [u8; LIMIT]) -> io::Result<Report<'a>>
    ensures read { IfOk result (λ report. (bytes : List ℕ)
        × ReadUpTo S.gives most_read input.old bytes input.new
        × Reports bytes (reported report) × RefusesByLists bytes (reported report)) }
    ensures report { IfOk result (λ report. IfSome (S.remaining input.old)
        (λ bytes. Reports (take most_read bytes) (reported report))) }
    ensures refused { IfOk result (λ report. IfSome (S.remaining input.old)
        (λ bytes. RefusesByLists (take most_read bytes) (reported report))) }
    ensures unread { OnOk result (IfSome (S.remaining input.old)
        (λ bytes. S.remaining input.new ≡ Some (drop most_read bytes))) }
    ensures failed { IfErr result (λ e. (bytes : List ℕ) × (length bytes < most_read)
        × Stopped S.gives input.old bytes (Err e) input.new
        × Consumes (S.remaining input.old) (S.remaining input.new) bytes) }
    ensures retried { IfErr result (λ e. error_kind e ≢ ErrorKind.Interrupted) }
{
    let filled = fill(input, room.as_mut_slice())?;
    Ok(report_of(&room[..filled]))
}
