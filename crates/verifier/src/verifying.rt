//! Verifying a release.

ghost use Rattle.std.specs.Prelude.{◌≡◌, ℕ, List};
ghost use Rattle.tree.specs.Meaning.{Hash, Code, hash_of, code_of};
ghost use Rattle.records.specs.Causes.{Refuses};
ghost use Rattle.records.specs.Keys.{Key};
ghost use Rattle.verifier.specs.Conditions.{Opening, OpenedWith, verify_causes};
ghost use Rattle.verifier.specs.Rules.{verify_rule};
ghost use Rattle.verifier.specs.Views.{key_of};

use crate::OpenedKey;
use crate::reading::read_under;
use codes::Code;
use hashes::TreeHash;
use records::Refusal;
use strings::same;

/// The leaf number of a release record that is good for the stamp, 16 bytes, under the opened key:
/// the root that is rebuilt from the record, over its chains, the L-tree inside the leaf and the
/// authentication path, is the key's (`verify_rule` in specs/). Refuses, in this order: with 6,
/// `Length`, 7, `Kind`, 8, `Parameters`, 10, `Layout`, and 11, `Leaf`, as `read_under`; with 12,
/// `Root`, a root unlike the key's.
pub fn verify<H: TreeHash, C: Code>(
    key: &OpenedKey<'_>,
    stamp: &[u8; 16],
    bytes: &[u8],
) -> Result<u16, Refusal>
    ensures answer { result ≡ verify_rule (hash_of H.TreeHash) (code_of C.Code) (key_of key.now)
        stamp.now bytes.now }
    ensures refuses { (hash : Hash) (code : Code) (by : Opening) (key : Key)
        (stamp bytes : List ℕ) → OpenedWith by key →
        Refuses (verify_causes hash code by key stamp bytes)
        (verify_rule hash code key stamp bytes) }
{
    let release = read_under::<H, C>(key, bytes)?;
    let parameters = key.parameters();
    let root = parameters.rebuild_root::<H, C>(release.leaf, stamp, release.row);
    if !same(&root, key.root()) {
        return Err(Refusal::Root);
    }
    Ok(release.leaf)
}
