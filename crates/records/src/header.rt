//! What both kinds of record begin with: a length field and a kind.

ghost use Rattle.std.specs.Prelude.{◌≡◌, ◌≤◌, ◌<◌, ◌^◌, ◌++◌, length, take, drop};
ghost use Rattle.std.specs.Option.{option_map};
ghost use Rattle.strings.specs.Strings.{little_endian};
ghost use Rattle.records.specs.Headers.{split_header};
ghost use Rattle.records.specs.Kinds.{kind_number};
ghost use Rattle.records.specs.Records.{body_start};
ghost use Rattle.records.specs.Rules.{seen, header_rule};
ghost use Rattle.records.specs.Views.{header_of};

use crate::{RecordKind, Refusal, layout};
use strings::put;

/// The length field and the kind of a record, and the bytes after them, which are its body where
/// the length is right. None of the three is judged yet.
#[derive(Clone, Copy)]
pub struct Header<'a> {
    /// The whole length in bytes, as bytes 0 to 3 name it.
    pub length: u32,
    /// The number of the kind, as bytes 4 and 5 name it.
    pub kind: u16,
    /// The bytes from byte 6 on, lent.
    pub body: &'a [u8],
}

/// The header of a record, little-endian: its length in 4 bytes and its kind in 2 (`split_header` in
/// specs/). None where there are fewer than 6 bytes; it refuses nothing else. All reading of
/// records begins here.
pub fn split_header(bytes: &[u8]) -> Option<Header<'_>>
    ensures { option_map header_of result ≡ split_header bytes.now }
{
    let [a, b, c, d, e, f, body @ ..] = bytes else {
        return None;
    };
    let length = u32::from_le_bytes([*a, *b, *c, *d]);
    let kind = u16::from_le_bytes([*e, *f]);
    Some(Header { length, kind, body })
}

/// The body of a record of this kind: what follows its 6 bytes of length and kind (`header_rule` in
/// specs/). Refuses with 6, `Length`, fewer than 10 bytes or a length field that differs from their
/// number, and then with 7, `Kind`, another kind.
pub fn body_of(bytes: &[u8], kind: RecordKind) -> Result<&[u8], Refusal>
    ensures { seen (λ x. x.now) result ≡ header_rule kind bytes.now }
{
    let Some(header) = split_header(bytes) else {
        return Err(Refusal::Length);
    };
    if bytes.len() < layout::SHORTEST || header.length as usize != bytes.len() {
        return Err(Refusal::Length);
    }
    if header.kind != kind.number() {
        return Err(Refusal::Kind);
    }
    Ok(header.body)
}

/// Writes what every record begins with into the first 6 bytes of the output: its whole length in
/// bytes, `size`, and its kind. The bytes after these 6 stay.
pub(crate) fn write_header(out: &mut [u8], kind: RecordKind, size: usize)
    requires room { body_start ≤ length out.old }
    requires short { size < 2 ^ 32 }
    ensures front { take body_start out.new ≡
        little_endian 4 size ++ little_endian 2 (kind_number kind) }
    ensures back { drop body_start out.new ≡ drop body_start out.old }
{
    let [a, b, c, d] = (size as u32).to_le_bytes();
    let [e, f] = kind.number().to_le_bytes();
    put(out, 0, &[a, b, c, d, e, f]);
}
