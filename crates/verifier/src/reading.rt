//! Reading a release record under an opened key.

ghost use Rattle.std.specs.Prelude.{◌≡◌, ℕ, true, List};
ghost use Rattle.tree.specs.Meaning.{Code, code_of};
ghost use Rattle.records.specs.Causes.{Refuses};
ghost use Rattle.records.specs.Keys.{Key};
ghost use Rattle.records.specs.Reads.{ReadsReleases};
ghost use Rattle.records.specs.Rules.{seen};
ghost use Rattle.records.specs.Views.{release_of};
ghost use Rattle.verifier.specs.Conditions.{Opening, OpenedWith, read_causes};
ghost use Rattle.verifier.specs.Rules.{suits, read_rule};
ghost use Rattle.verifier.specs.Views.{key_of};

use crate::OpenedKey;
use crate::opening::suits;
use codes::Code;
use hashes::ChainHash;
use records::{RecordKind, Refusal, Release, body_of, parts_of};

/// Reads a release record as it lies in `bytes`, under an opened key: its leaf number and its row
/// of strings (`read_rule` in specs/). Refuses, in this order: with 6, `Length`, and 7, `Kind`, as
/// `open`; with 8, `Parameters`, a key that was opened with another hash number, code number or
/// number of levels; with 10, `Layout`, another byte count than 8 + 16 (count + height); with 11,
/// `Leaf`, a leaf number of 2^height or more.
pub fn read_under<'a, H: ChainHash, C: Code>(
    key: &OpenedKey<'_>,
    bytes: &'a [u8],
) -> Result<Release<'a>, Refusal>
    ensures answer { seen release_of result ≡ read_rule H.ChainHash.NUMBER (code_of C.Code)
        (key_of key.now) bytes.now }
    ensures reads { suits H.ChainHash.NUMBER C.Code.NUMBER C.Code.LEVELS (key_of key.now) ≡ true →
        ReadsReleases C.Code.COUNT (key_of key.now).height bytes.now (seen release_of result) }
    ensures refuses { (hash : ℕ) (code : Code) (by : Opening) (key : Key) (bytes : List ℕ) →
        OpenedWith by key →
        Refuses (read_causes hash code by key bytes) (read_rule hash code key bytes) }
{
    let body = body_of(bytes, RecordKind::Release)?;
    if !suits::<H, C>(key) {
        return Err(Refusal::Parameters);
    }
    parts_of::<C>(key.height, body)
}
