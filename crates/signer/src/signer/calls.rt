//! The calls of a key in service.

ghost use Rattle.std.specs.Prelude.{◌≡◌, ◌^◌, ◌<◌, replicate};
ghost use Rattle.tree.specs.Meaning.{hash_of, code_of};
ghost use Rattle.tree.specs.Rows.{work_size};
ghost use Rattle.records.specs.Causes.{Refuses};
ghost use Rattle.rules.specs.Conditions.{sign_causes, skip_causes};
ghost use Rattle.rules.specs.Rules.{Accepts, release_record, sign_answer, sign_state, sign_output, skip_answer, skip_state};
ghost use Rattle.histories.specs.Histories.{serving, retired, sign, skip, retire, HasLived, Continues};
ghost use Rattle.signer.specs.Views.{signing_of, signing_of_retired};

use crate::scratch::Scratch;
use crate::shown::Shown;
use crate::{Retired, Signer};
use codes::Code;
use growth::Tree;
use hashes::TreeHash;
use records::{Refusal, release_length, write_release};
use tree::rows::WORK;

impl<H: TreeHash, C: Code> Signer<H, C> {
    /// Spends the next leaf on a stamp of 16 bytes, and answers the length of the release record and
    /// its leaf number. The record is written at the start of the output, and the bytes past it stay.
    /// It has 8 + 16 (count + height) bytes for a code with `count` chains: its length, its kind and
    /// the leaf number in 8, a string of each hash chain at the height of the stamp's digit, and the
    /// authentication path, grown again from the seed. The stamp is entered in the leaf's row of the
    /// ledger, and the next leaf is one higher. Under the signer's key record verify accepts the
    /// release record for this stamp.
    ///
    /// Refuses, in this order: with 3, `Spent`, where all 2^height leaves are spent; with 4, `Output`,
    /// an output shorter than the record. The signer and all of the output then stay as they were.
    ///
    /// The work buffer, 4,096 bytes, is all zero after, refused or not.
    pub fn sign(
        &mut self,
        stamp: &[u8; 16],
        out: &mut [u8],
        work: &mut [u8; WORK],
    ) -> Result<(usize, u16), Refusal>
        ensures answer { result ≡ sign_answer (code_of C.Code) (signing_of self.old) out.old }
        ensures refuses { Refuses (sign_causes (code_of C.Code) (signing_of self.old) out.old) result }
        ensures state { signing_of self.new ≡ sign_state (code_of C.Code) (signing_of self.old)
            stamp.now out.old }
        ensures output { out.new ≡ sign_output (hash_of H.TreeHash) (code_of C.Code)
            (signing_of self.old) stamp.now out.old }
        ensures accepts { (signing_of self.old).next < 2 ^ (signing_of self.old).origin.height →
            Accepts (hash_of H.TreeHash) (code_of C.Code) (signing_of self.old) stamp.now
            (release_record (hash_of H.TreeHash) (code_of C.Code) (signing_of self.old)
            (signing_of self.old).next stamp.now) (signing_of self.old).next }
        ensures lived { Continues (hash_of H.TreeHash) (code_of C.Code)
            (serving (signing_of self.old)) (sign stamp.now out.old result out.new)
            (serving (signing_of self.new)) }
        ensures wiped { work.new ≡ replicate work_size 0 }
    {
        let guard = Scratch { bytes: work };
        let leaf = self.next;
        if leaf == 1 << self.origin.height {
            return Err(Refusal::Spent);
        }
        let size = release_length::<C>(self.origin.height);
        if out.len() < size {
            return Err(Refusal::Output);
        }
        let tree = Tree {
            origin: &self.origin,
            hash: self.hash,
            code: self.code,
        };
        let shown = Shown { tree, leaf, stamp };
        write_release::<C, Shown<'_, '_, H, C>>(out, self.origin.height, leaf, &shown, guard.bytes);
        self.ledger.enter(leaf, stamp);
        self.next = leaf + 1;
        Ok((size, leaf))
    }

    /// Makes `leaf` the next leaf, and answers it. The leaves that are passed over never sign, and
    /// their rows of the ledger stay empty; after a skip to 2^height no leaf is left. Refuses with 5,
    /// `Skip`, a number below the next leaf or above 2^height; the signer then stays as it was. Takes
    /// no work buffer.
    pub fn skip(&mut self, leaf: u16) -> Result<u16, Refusal>
        ensures answer { result ≡ skip_answer (signing_of self.old) leaf }
        ensures refuses { Refuses (skip_causes (signing_of self.old) leaf) result }
        ensures state { signing_of self.new ≡ skip_state (signing_of self.old) leaf }
        ensures lived { Continues (hash_of H.TreeHash) (code_of C.Code)
            (serving (signing_of self.old)) (skip leaf result) (serving (signing_of self.new)) }
    {
        if leaf < self.next || leaf > 1 << self.origin.height {
            return Err(Refusal::Skip);
        }
        self.next = leaf;
        Ok(leaf)
    }

    /// Takes the signer out of service, and gives a retired one with the same key, next leaf and
    /// ledger. Refuses nothing, and takes no work buffer.
    pub fn retire(self) -> Retired<H, C>
        ensures state { signing_of_retired result ≡ signing_of self }
        ensures lived { Continues (hash_of H.TreeHash) (code_of C.Code)
            (serving (signing_of self)) retire (retired (signing_of_retired result)) }
        ensures behind { HasLived (hash_of H.TreeHash) (code_of C.Code)
            (retired (signing_of_retired result)) }
    {
        Retired { signer: self }
    }
}
