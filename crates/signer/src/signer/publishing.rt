//! The key record of a signer, in service and out of it.

ghost use Rattle.std.specs.Prelude.{◌≡◌, Ok};
ghost use Rattle.tree.specs.Meaning.{hash_of, code_of};
ghost use Rattle.records.specs.Causes.{Refuses};
ghost use Rattle.records.specs.Rules.{open_rule};
ghost use Rattle.rules.specs.Conditions.{key_causes};
ghost use Rattle.rules.specs.Rules.{key_record, own_key, key_answer, key_output};
ghost use Rattle.histories.specs.Histories.{State, IsSigner, key, Continues};
ghost use Rattle.signer.specs.Views.{signing_of};

use crate::Signer;
use codes::Code;
use hashes::TreeHash;
use records::{Refusal, key_length, layout};
use tree::Parameters;

impl<H: TreeHash, C: Code> Signer<H, C> {
    /// Writes the key record at the start of the output, and answers its length: 42 + 32 (height +
    /// levels) bytes for a code with `levels` levels in a leaf. It has the numbers of the hash and the
    /// code, the height, the hash key, the masks of the tree's levels and the root, and no secret; open,
    /// for this hash and code, refuses nothing on it. The bytes of the output past it stay, and the
    /// signer is unchanged. Refuses with 4, `Output`, an output shorter than the record; all of the
    /// output then stays as it was. Takes no work buffer.
    pub fn key(&self, out: &mut [u8]) -> Result<usize, Refusal>
        ensures answer { result ≡ key_answer (code_of C.Code) (signing_of self.now) out.old }
        ensures refuses { Refuses (key_causes (code_of C.Code) (signing_of self.now) out.old) result }
        ensures output { out.new ≡ key_output (hash_of H.TreeHash) (code_of C.Code)
            (signing_of self.now) out.old }
        ensures opens { open_rule H.ChainHash.NUMBER C.Code.NUMBER C.Code.LEVELS
            (key_record (hash_of H.TreeHash) (code_of C.Code) (signing_of self.now))
            ≡ Ok
            (own_key (hash_of H.TreeHash) (code_of C.Code) (signing_of self.now)) }
        ensures lived { (x : State) → IsSigner x (signing_of self.now) →
            Continues (hash_of H.TreeHash) (code_of C.Code) x
            (key out.old result out.new) x }
    {
        let size = key_length::<C>(self.origin.height);
        if out.len() < size {
            return Err(Refusal::Output);
        }
        let parameters = Parameters {
            hash_key: &self.origin.hash_key,
            masks: &self.origin.masks[..size - layout::BESIDE_MASKS],
            height: self.origin.height,
        };
        records::key::write::<H, C>(out, &parameters, &self.root);
        Ok(size)
    }
}
