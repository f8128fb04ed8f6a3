//! Where the first record ends in bytes that have more after it.

ghost use Rattle.std.specs.Prelude.{◌≡◌, ◌≤◌, length};
ghost use Rattle.orders.specs.Outcomes.{record_length, first_record, after_record};

use records::{layout, split_header};

// How long the first record in `bytes` is, by its length field. Where not all of it is there, the rest is one record.
fn record_length(bytes: &[u8]) -> usize
    ensures value { result ≡ record_length bytes.now }
    ensures within { result ≤ length bytes.now }
{
    let Some(header) = split_header(bytes) else {
        return bytes.len();
    };
    let named = header.length as usize;
    if bytes.len() < layout::SHORTEST || named < layout::SHORTEST || named > bytes.len() {
        bytes.len()
    } else {
        named
    }
}

/// The first record in `bytes`, as long as its length field says, and what follows it. Where the field says fewer than 10
/// bytes, or more than there are, all of `bytes` is one record; reading it refuses with 6, `Length`.
pub fn split_record(bytes: &[u8]) -> (&[u8], &[u8])
    ensures first { result.0.now ≡ first_record bytes.now }
    ensures rest { result.1.now ≡ after_record bytes.now }
{
    bytes.split_at(record_length(bytes))
}
