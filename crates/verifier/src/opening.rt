//! Opening a key record.

ghost use Rattle.std.specs.Prelude.{◌≡◌, ℕ, Ok, ◌↔◌, IsTrue};
ghost use Rattle.records.specs.Reads.{ReadsKeys};
ghost use Rattle.records.specs.Rules.{seen, open_rule};
ghost use Rattle.verifier.specs.Rules.{suits};
ghost use Rattle.verifier.specs.Views.{key_of};

use crate::OpenedKey;
use codes::Code;
use hashes::ChainHash;
use records::{Refusal, key};

/// Opens a key record as it lies in `bytes`, for a verifier with hash `H` and code `C` (`open_rule`
/// in the specs/ of records). Refuses, in this order: with 6, `Length`, fewer than 10 bytes or a
/// length field that differs from their number; with 7, `Kind`, another kind of record; with 8,
/// `Parameters`, another hash or code number; with 9, `Height`, a height outside 1 to 8 or a spare
/// byte other than 0; with 10, `Layout`, another byte count than 42 + 32 (height + levels).
pub fn open<H: ChainHash, C: Code>(bytes: &[u8]) -> Result<OpenedKey<'_>, Refusal>
    ensures answer { seen key_of result ≡ open_rule H.ChainHash.NUMBER C.Code.NUMBER C.Code.LEVELS
        bytes.now }
    ensures reads { ReadsKeys H.ChainHash.NUMBER C.Code.NUMBER C.Code.LEVELS bytes.now
        (seen key_of result) }
{
    let height = key::read::<H, C>(bytes)?;
    Ok(OpenedKey { bytes, height })
}

/// Whether a verifier with hash `H` and code `C` opens this key too (`suits` in specs/): whether
/// it was opened with the same hash number, code number and number of levels.
pub fn suits<H: ChainHash, C: Code>(key: &OpenedKey<'_>) -> bool
    ensures answer { result ≡ suits H.ChainHash.NUMBER C.Code.NUMBER C.Code.LEVELS
        (key_of key.now) }
    ensures opened { (hash code levels : ℕ) →
        open_rule hash code levels (key_of key.now).bytes ≡ Ok (key_of key.now) →
        (IsTrue result ↔
        ((hash ≡ H.ChainHash.NUMBER) × (code ≡ C.Code.NUMBER) × (levels ≡ C.Code.LEVELS))) }
{
    matches!(open::<H, C>(key.bytes), Ok(same) if same.height == key.height)
}
