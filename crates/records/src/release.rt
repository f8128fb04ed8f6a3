//! Release records: reading and writing.

ghost use Rattle.std.specs.Prelude.{◌≡◌, ℕ, ◌+◌, ◌*◌, ◌<◌, ◌≤◌, ◌++◌, List, length, take, drop};
ghost use Rattle.tree.specs.Rows.{row_from};
ghost use Rattle.tree.specs.Nodes.{tallest};
ghost use Rattle.records.specs.Reads.{ReadsReleases};
ghost use Rattle.records.specs.Records.{body_start, row_start, release_length, release_bytes};
ghost use Rattle.records.specs.Rules.{seen, parts_rule, release_rule};
ghost use Rattle.records.specs.Views.{release_of};

use crate::header::{body_of, write_header};
use crate::{RecordKind, Refusal, layout, release_length};
use codes::Code;
use strings::put;
use tree::rows::WORK;

/// A release as it lies in the caller's bytes: what a release record holds.
#[derive(Clone, Copy)]
pub struct Release<'a> {
    /// The number of the leaf that was spent on the stamp.
    pub leaf: u16,
    /// A string of 16 bytes for each chain, then the siblings from the leaf's level up to level 1
    /// (the authentication path).
    pub row: &'a [u8],
}

/// The leaf number and the strings in the body of a release record under a key of this height
/// (`parts_rule` in specs/). Refuses with 10, `Layout`, a body of another byte count than that of
/// `release_length`, and then with 11, `Leaf`, a leaf number of 2^height or more.
pub fn parts_of<C: Code>(height: u8, body: &[u8]) -> Result<Release<'_>, Refusal>
    ensures { (bytes : List ℕ) → body.now ≡ drop body_start bytes →
        seen release_of result ≡ parts_rule C.Code.COUNT height bytes }
{
    let [low, high, row @ ..] = body else {
        return Err(Refusal::Layout);
    };
    if layout::ROW + row.len() != release_length::<C>(height) {
        return Err(Refusal::Layout);
    }
    let leaf = u16::from_le_bytes([*low, *high]);
    // Where the height is 16 or more, every number is a leaf's.
    if height < 16 && leaf >= 1 << height {
        return Err(Refusal::Leaf);
    }
    Ok(Release { leaf, row })
}

/// Reads a release record under a key of this height, as the key's own signer does (`release_rule`
/// in specs/). Refuses, in this order: with 6, `Length`, and 7, `Kind`, as `body_of`; with 10,
/// `Layout`, and 11, `Leaf`, as `parts_of`.
pub fn read_release<C: Code>(height: u8, bytes: &[u8]) -> Result<Release<'_>, Refusal>
    ensures answer { seen release_of result ≡ release_rule C.Code.COUNT height bytes.now }
    ensures reads { height ≤ tallest →
        ReadsReleases C.Code.COUNT height bytes.now (seen release_of result) }
{
    let body = body_of(bytes, RecordKind::Release)?;
    parts_of::<C>(height, body)
}

/// The strings of a release, made one by one: whoever writes a release record says here what they
/// are.
pub trait ReleaseRow {
    /// How many strings there are.
    ghost count: { Self → ℕ };

    /// The string at a place, counted from 0.
    ghost strings: { Self → ℕ → List ℕ };

    /// String number `k`, 16 bytes. The work buffer, 4,096 bytes, is used up.
    fn string(&self, k: usize, work: &mut [u8; WORK]) -> [u8; 16]
        requires { k < count self.now }
        ensures { result ≡ strings self.now k };
}

// Writes `count` strings, all of the row, from byte 8 of the output on; the bytes before and after
// them stay.
fn write_row<R: ReleaseRow>(out: &mut [u8], row: &R, count: usize, work: &mut [u8; WORK])
    requires whole { count ≡ R.count row.now }
    requires room { row_start + 16 * count ≤ length out.old }
    ensures after { out.new ≡ (take row_start out.old ++ row_from (R.strings row.now) count)
        ++ drop (row_start + 16 * count) out.old }
    ensures long { length (row_from (R.strings row.now) count) ≡ 16 * count }
{
    for place in 0..count {
        let string = row.string(place, work);
        put(out, layout::ROW + 16 * place, &string);
    }
}

/// Writes a release record of this leaf under a key of this height at the start of the output,
/// which must have room for it (`release_bytes` in specs/); the bytes past it stay. The row is made
/// string by string, in the output. The work buffer, 4,096 bytes, is used up.
pub fn write_release<C: Code, R: ReleaseRow>(
    out: &mut [u8],
    height: u8,
    leaf: u16,
    row: &R,
    work: &mut [u8; WORK],
)
    requires whole { C.Code.COUNT + height ≡ R.count row.now }
    requires room { release_length C.Code.COUNT height ≤ length out.old }
    ensures { out.new ≡ release_bytes leaf (row_from (R.strings row.now) (C.Code.COUNT + height))
        ++ drop (release_length C.Code.COUNT height) out.old }
{
    write_header(out, RecordKind::Release, release_length::<C>(height));
    put(out, layout::BODY, &leaf.to_le_bytes());
    write_row(out, row, C::COUNT + height as usize, work);
}
