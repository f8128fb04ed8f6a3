//! Traces, in service and out of it.

ghost use Rattle.std.specs.Prelude.{◌≡◌, replicate};
ghost use Rattle.tree.specs.Meaning.{hash_of, code_of};
ghost use Rattle.tree.specs.Rows.{work_size};
ghost use Rattle.records.specs.Causes.{Refuses};
ghost use Rattle.rules.specs.Conditions.{trace_causes};
ghost use Rattle.rules.specs.Rules.{trace_answer, trace_report, Finds};
ghost use Rattle.histories.specs.Histories.{State, serving, IsSigner, trace, HasLived, Continues};
ghost use Rattle.histories.specs.Promise.{Promised};
ghost use Rattle.signer.specs.Views.{signing_of};

use crate::Signer;
use crate::scratch::Scratch;
use codes::Code;
use compare::{REPORT, Subject};
use growth::Tree;
use hashes::TreeHash;
use records::{Refusal, read_release};
use strings::same;
use tree::rows::WORK;

impl<H: TreeHash, C: Code> Signer<H, C> {
    /// Compares a release record, which came back with a stamp of 16 bytes, with what the seed and the
    /// ledger give for its leaf. Answers a verdict and two numbers, and writes the report, 64 bytes:
    /// four strings, of which those that are not used are zero. It looks in this order, and stops at
    /// the first find:
    ///
    /// - 1, a level and a position: a node above the record's leaf or within it (its L-tree) is equal
    ///   on both sides, while its masked children differ: two different inputs of pair have one value.
    ///   It is the least such level, and there the least position. The report has the signer's masked
    ///   left and right child, and then the record's.
    /// - 2, a chain and a height: the strings of both sides differ there, and step to one string. It is
    ///   the lowest such chain, and on it the greatest height. The report has the signer's string,
    ///   which may never have been revealed, and then the record's.
    /// - 3, a chain and a height: the stamp's digit there, which is that height, is below what the
    ///   leaf's row of the ledger reveals (the digit of its stamp, or the top digit where the row is
    ///   empty). It is the lowest such chain. The report has the signer's string there.
    /// - 0, the leaf number and 0: nothing of these. The record is ours: this signer issued it for this
    ///   stamp. The report is all zero.
    ///
    /// Refuses what verify refuses under the signer's own key record, in this order: with 6, `Length`,
    /// fewer than 10 bytes or a length field that differs from their number; with 7, `Kind`, another
    /// kind than a release; with 10, `Layout`, another byte count than 8 + 16 (count + height), for a
    /// code with `count` chains; with 11, `Leaf`, a leaf number of 2^height or more; with 12, `Root`, a
    /// rebuilt root unlike the signer's. The report then stays as it was.
    ///
    /// The signer is unchanged. The work buffer, 4,096 bytes, is all zero after, refused or not.
    pub fn trace<'a>(
        &'a self,
        stamp: &'a [u8; 16],
        bytes: &'a [u8],
        report: &mut [u8; REPORT],
        work: &mut [u8; WORK],
    ) -> Result<(u8, u16, u16), Refusal>
        ensures answer { result ≡ trace_answer (hash_of H.TreeHash) (code_of C.Code)
            (signing_of self.now) stamp.now bytes.now }
        ensures refuses { Refuses (trace_causes (hash_of H.TreeHash)
            (code_of C.Code) (signing_of self.now) stamp.now bytes.now) result }
        ensures report { report.new ≡ trace_report (hash_of H.TreeHash)
            (code_of C.Code) (signing_of self.now) stamp.now bytes.now report.old }
        ensures finds { Finds (hash_of H.TreeHash) (code_of C.Code)
            (signing_of self.now) stamp.now bytes.now result report.new }
        ensures lived { (x : State) → IsSigner x (signing_of self.now) →
            Continues (hash_of H.TreeHash) (code_of C.Code) x
            (trace stamp.now bytes.now report.old result report.new) x }
        ensures promise { Promised (hash_of H.TreeHash) (code_of C.Code)
            (signing_of self.now) stamp.now bytes.now result report.new }
        ensures behind { HasLived (hash_of H.TreeHash) (code_of C.Code)
            (serving (signing_of self.now)) }
        ensures wiped { work.new ≡ replicate work_size 0 }
    {
        let guard = Scratch { bytes: work };
        let release = read_release::<C>(self.origin.height, bytes)?;
        let subject = Subject {
            tree: Tree {
                origin: &self.origin,
                hash: self.hash,
                code: self.code,
            },
            entered: self.ledger.row(release.leaf),
            stamp,
            leaf: release.leaf,
            row: release.row,
        };
        let compared = subject.compare(guard.bytes);
        if !same(&compared.root, &self.root) {
            return Err(Refusal::Root);
        }
        *report = compared.verdict.report();
        Ok(compared.verdict.numbers(release.leaf))
    }
}
