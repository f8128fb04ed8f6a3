//! Key records: reading, parts and writing.

ghost use Rattle.std.specs.Prelude.{◌≡◌, ◌+◌, ◌<◌, ◌≤◌, ◌^◌, ◌++◌, length, drop};
ghost use Rattle.records.specs.Keys.{key_of_height};
ghost use Rattle.records.specs.Reads.{ReadsKeys};
ghost use Rattle.records.specs.Records.{beside_masks, framed, key_bytes, hash_key_of, masks_of, root_of};
ghost use Rattle.records.specs.Records.{shortest_record};
ghost use Rattle.records.specs.Rules.{seen, is_foreign, has_bad_height, open_rule};
ghost use Rattle.records.specs.declared.kind.RecordKind.TheVariants as kind;

use crate::header::{body_of, write_header};
use crate::{RecordKind, Refusal, TALLEST, key_length, layout};
use codes::Code;
use hashes::ChainHash;
use strings::put;
use tree::Parameters;

// Whether the record names another hash or another code than these.
fn is_foreign<H: ChainHash, C: Code>(bytes: &[u8]) -> bool
    requires { shortest_record ≤ length bytes.now }
    ensures { result ≡ is_foreign H.ChainHash.NUMBER C.Code.NUMBER bytes.now }
{
    bytes[layout::HASH_NUMBER] != H::NUMBER || bytes[layout::CODE_NUMBER] != C::NUMBER
}

// Whether the height is outside 1 to 8, or the spare byte other than 0.
fn has_bad_height(bytes: &[u8]) -> bool
    requires { shortest_record ≤ length bytes.now }
    ensures { result ≡ has_bad_height bytes.now }
{
    !(1..=TALLEST).contains(&bytes[layout::HEIGHT]) || bytes[layout::SPARE] != 0
}

/// Reads a key record for a verifier with hash `H` and code `C`, and answers its height
/// (`open_rule` in specs/). Refuses, in this order: with 6, `Length`, and 7, `Kind`, as `body_of`;
/// with 8, `Parameters`, another hash or code number; with 9, `Height`, a height outside 1 to 8 or
/// a spare byte other than 0; with 10, `Layout`, another byte count than `key_length` of the
/// height.
pub fn read<H: ChainHash, C: Code>(bytes: &[u8]) -> Result<u8, Refusal>
    ensures answer { seen (key_of_height bytes.now) result
        ≡ open_rule H.ChainHash.NUMBER C.Code.NUMBER C.Code.LEVELS bytes.now }
    ensures reads { ReadsKeys H.ChainHash.NUMBER C.Code.NUMBER C.Code.LEVELS bytes.now
        (seen (key_of_height bytes.now) result) }
{
    body_of(bytes, RecordKind::Key)?;
    if is_foreign::<H, C>(bytes) {
        return Err(Refusal::Parameters);
    }
    if has_bad_height(bytes) {
        return Err(Refusal::Height);
    }
    let height = bytes[layout::HEIGHT];
    if bytes.len() != key_length::<C>(height) {
        return Err(Refusal::Layout);
    }
    Ok(height)
}

/// The hash key of a key record, 16 bytes from byte 10 on. No byte before it is looked at. Wants at
/// least 42 bytes, as an opened key has.
pub fn hash_key(bytes: &[u8]) -> &[u8; 16]
    requires { beside_masks ≤ length bytes.now }
    ensures { result.now ≡ hash_key_of bytes.now }
{
    bytes[layout::HASH_KEY..].first_chunk().unwrap()
}

/// The bitmasks of a key record, 32 bytes for each level from the root down: all bytes from byte 26
/// on but the last 16. Wants at least 42 bytes, as an opened key has.
pub fn masks(bytes: &[u8]) -> &[u8]
    requires { beside_masks ≤ length bytes.now }
    ensures { result.now ≡ masks_of bytes.now }
{
    &bytes[layout::MASKS..][..bytes.len() - layout::BESIDE_MASKS]
}

/// The root of a key record, its last 16 bytes. Wants at least 42 bytes, as an opened key has.
pub fn root(bytes: &[u8]) -> &[u8; 16]
    requires { beside_masks ≤ length bytes.now }
    ensures { result.now ≡ root_of bytes.now }
{
    bytes.last_chunk().unwrap()
}

// Writes a key record at the start of the output; the bytes past it stay. `names` is the hash
// number, the code number, the height and the spare byte.
fn write_parts(out: &mut [u8], names: &[u8; 4], hash_key: &[u8; 16], masks: &[u8], root: &[u8; 16])
    requires room { beside_masks + length masks.now ≤ length out.old }
    requires short { beside_masks + length masks.now < 2 ^ 32 }
    ensures { out.new ≡ framed kind.Key (names.now ++ (hash_key.now ++ (masks.now ++ root.now)))
        ++ drop (beside_masks + length masks.now) out.old }
{
    let size = layout::BESIDE_MASKS + masks.len();
    write_header(out, RecordKind::Key, size);
    // Copies, so that what is written cannot lie under what is read: else the compiler tests for
    // that each time.
    put(out, layout::BODY, &{ *names });
    put(out, layout::HASH_KEY, &{ *hash_key });
    put(out, layout::MASKS, masks);
    put(out, layout::MASKS + masks.len(), &{ *root });
}

/// Writes the key record of a tree with these parameters and this root, 16 bytes, at the start of
/// the output, which must have room for it (`key_bytes` in specs/); the bytes past it stay.
pub fn write<H: ChainHash, C: Code>(out: &mut [u8], parameters: &Parameters<'_>, root: &[u8; 16])
    requires room { beside_masks + length parameters.now.masks.now ≤ length out.old }
    requires short { beside_masks + length parameters.now.masks.now < 2 ^ 32 }
    ensures { out.new ≡ key_bytes H.ChainHash.NUMBER C.Code.NUMBER parameters.now.height
        parameters.now.hash_key.now parameters.now.masks.now root.now
        ++ drop (beside_masks + length parameters.now.masks.now) out.old }
{
    let names = [H::NUMBER, C::NUMBER, parameters.height, 0];
    write_parts(out, &names, parameters.hash_key, parameters.masks, root);
}
