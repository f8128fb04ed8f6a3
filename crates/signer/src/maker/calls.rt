//! Beginning and growing a key.

ghost use Rattle.std.specs.Prelude.{◌≡◌, ℕ, List, [], replicate, Some};
ghost use Rattle.tree.specs.Meaning.{hash_of, code_of};
ghost use Rattle.tree.specs.Rows.{work_size};
ghost use Rattle.growth.specs.Grown.{node_at};
ghost use Rattle.records.specs.Causes.{Refuses};
ghost use Rattle.rules.specs.Conditions.{grow_causes};
ghost use Rattle.rules.specs.Rules.{begin_state, grow_answer, grow_state, held_rule, finish_state};
ghost use Rattle.histories.specs.Histories.{growing, serving, grow, finish, Lived, Continues};
ghost use Rattle.signer.specs.Views.{height_of_plan, making_of, signing_of};

use crate::ledger::Ledger;
use crate::scratch::Scratch;
use crate::{Maker, Plan, Signer};
use codes::Code;
use growth::{MASKS, NODES, Origin, Tree};
use hashes::TreeHash;
use records::Refusal;
use std::marker::PhantomData;
use strings::string_at;
use tree::rows::WORK;

impl<H: TreeHash, C: Code> Maker<H, C> {
    /// Begins a key of this plan: no leaf is in, and no node is held. Takes a seed of 16 bytes, a hash
    /// key of 16 bytes, and the bitmasks, 512 bytes: string 2a is the left mask of level a, string
    /// 2a + 1 the right one. A tree uses the masks of its own levels, the first 32 (height + levels)
    /// bytes for a code with `levels` levels in a leaf. The seed is secret: with it, the hash key and
    /// the masks every record of the key can be made. Refuses nothing, and takes no work buffer.
    pub fn begin(plan: Plan, seed: [u8; 16], hash_key: [u8; 16], masks: [u8; MASKS]) -> Maker<H, C>
        ensures state { making_of result ≡ begin_state
            (record { seed = seed; hash_key = hash_key; masks = masks; height = height_of_plan plan }) }
        ensures lived { Lived (hash_of H.TreeHash) (code_of C.Code)
            (record { seed = seed; hash_key = hash_key; masks = masks; height = height_of_plan plan }) []
            (growing (making_of result)) }
    {
        let height = plan.height();
        Maker {
            origin: Origin {
                seed,
                hash_key,
                masks,
                height,
            },
            grown: 0,
            nodes: [0; NODES],
            hash: PhantomData,
            code: PhantomData,
        }
    }

    /// Grows the next leaf and adds it to the tree (treehash), and answers how many leaves are in now,
    /// from 1 to 2^height. Refuses with 2, `Grown`, where all 2^height leaves are in; the maker then
    /// stays as it was. The work buffer, 4,096 bytes, is all zero after, refused or not.
    pub fn grow(&mut self, work: &mut [u8; WORK]) -> Result<u16, Refusal>
        ensures answer { result ≡ grow_answer (making_of self.old) }
        ensures refuses { Refuses (grow_causes (making_of self.old)) result }
        ensures state { making_of self.new ≡ grow_state (hash_of H.TreeHash)
            (code_of C.Code) (making_of self.old) }
        ensures lived { Continues (hash_of H.TreeHash) (code_of C.Code)
            (growing (making_of self.old)) (grow result) (growing (making_of self.new)) }
        ensures wiped { work.new ≡ replicate work_size 0 }
    {
        let guard = Scratch { bytes: work };
        if self.grown == 1 << self.origin.height {
            return Err(Refusal::Grown);
        }
        let tree = Tree {
            origin: &self.origin,
            hash: self.hash,
            code: self.code,
        };
        tree.add_leaf(self.grown, &mut self.nodes, guard.bytes);
        self.grown += 1;
        Ok(self.grown)
    }

    /// The node that is held at a level, as its position, counted from 0, and its 16 bytes: the last
    /// node of that level that the leaves fill, where no larger full subtree has it. With g leaves in,
    /// level a holds a node exactly where bit height - a of g is 1. None where no node of that level
    /// is held, and where the level is greater than the height. The maker is unchanged.
    pub fn held(&self, level: u8) -> Option<(u16, [u8; 16])>
        ensures value { result ≡ held_rule (making_of self.now) level }
        ensures node { (b : ℕ) (s : List ℕ) → result ≡ Some (b, s) →
            s ≡ node_at (hash_of H.TreeHash) (code_of C.Code) (making_of self.now).origin level b }
    {
        if level > self.origin.height {
            return None;
        }
        let filled = self.grown >> (self.origin.height - level);
        if filled % 2 == 0 {
            return None;
        }
        let node = string_at(&self.nodes, level as usize);
        Some((filled - 1, node))
    }

    /// Takes the maker, grows the leaves that are lacking, and gives the signer: its root is the node
    /// at level 0, its next leaf is leaf 0, and its ledger is empty. Refuses nothing. The work buffer,
    /// 4,096 bytes, is all zero after.
    pub fn finish(self, work: &mut [u8; WORK]) -> Signer<H, C>
        ensures state { signing_of result ≡ finish_state (hash_of H.TreeHash)
            (code_of C.Code) (making_of self) }
        ensures rooted { (signing_of result).root ≡ node_at (hash_of H.TreeHash)
            (code_of C.Code) (signing_of result).origin 0 0 }
        ensures lived { Continues (hash_of H.TreeHash) (code_of C.Code)
            (growing (making_of self)) finish (serving (signing_of result)) }
        ensures wiped { work.new ≡ replicate work_size 0 }
    {
        let guard = Scratch { bytes: work };
        let Maker {
            origin,
            grown,
            mut nodes,
            hash,
            code,
        } = self;
        for leaf in grown..1 << origin.height {
            let tree = Tree {
                origin: &origin,
                hash,
                code,
            };
            tree.add_leaf(leaf, &mut nodes, guard.bytes);
        }
        let root = string_at(&nodes, 0);
        Signer {
            origin,
            root,
            next: 0,
            ledger: Ledger::empty(),
            hash,
            code,
        }
    }
}
