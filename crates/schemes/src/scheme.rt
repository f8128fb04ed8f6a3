//! A hash and a code, and work that is done with any of them.

ghost use Rattle.std.specs.Prelude.{◌≡◌, ◌↔◌, IsErr};
ghost use Rattle.tree.specs.Meaning.{Hash, Code, hash_of, code_of};
ghost use Rattle.schemes.specs.Names.{hash_named, code_named, scheme_numbered, UnknownNumbers};

use crate::{CodeName, HashName, UnknownScheme};
use aes128::Aes128Hash;
use codes::{Code, LamportDiffie, Winternitz2, Winternitz4};
use hashes::{Practice, TreeHash};
use sha256::Sha256Hash;

/// Work that is written for any hash and code. Its meaning is the relation `gives`.
pub trait Task {
    /// What the work answers.
    type Output;

    /// Relates the task before the work, the hash and the code, the answer, and the task after the work. What the work writes
    /// through a reference of the task is said by `Wrote`.
    ghost gives: { Self → Hash → Code → Self.Output → Self → Type 0 };

    /// Does the work with hash `H` and code `C`. Takes the task, whose fields hold what the work reads and where it writes,
    /// and gives the work's answer. What the answer is, and how the task is left, is said by `gives`. It refuses nothing by
    /// itself: what the work refuses stands in its answer.
    fn run<H: TreeHash, C: Code>(&mut self) -> Self::Output
        ensures { gives self.old (hash_of H.TreeHash) (code_of C.Code) result
            self.new };
}

// Does the work with hash `H` and the code of this name.
fn run_code<H: TreeHash, T: Task>(code: CodeName, task: &mut T) -> T::Output
    ensures { T.gives task.old (hash_of H.TreeHash) (code_named code) result
        task.new }
{
    match code {
        CodeName::LamportDiffie => task.run::<H, LamportDiffie>(),
        CodeName::Winternitz2 => task.run::<H, Winternitz2>(),
        CodeName::Winternitz4 => task.run::<H, Winternitz4>(),
    }
}

/// A hash and a code, by their names.
#[derive(Clone, Copy, PartialEq, Eq, Debug)]
pub struct Scheme {
    /// The hash of chains and nodes.
    pub hash: HashName,
    /// The code of the one-time signatures.
    pub code: CodeName,
}

impl Scheme {
    /// The hash and the code with these numbers, one byte each, as bytes 6 and 7 of a key record have them. Gives the error
    /// exactly where no hash has the first number, or no code the second. Rules: `scheme_numbered`, and of the error
    /// `UnknownNumbers`.
    pub fn numbered(hash: u8, code: u8) -> Result<Scheme, UnknownScheme>
        ensures value { result ≡ scheme_numbered hash code }
        ensures unknown { IsErr result ↔ UnknownNumbers hash code }
    {
        let hash = HashName::try_from(hash)?;
        let code = CodeName::try_from(code)?;
        Ok(Scheme { hash, code })
    }

    /// Does the work of a task with the hash and the code, and gives its answer; it refuses nothing by itself. Rule: the
    /// task's `gives`, with the hash and the code that the scheme names (`hash_named` and `code_named` in specs/).
    pub fn run<T: Task>(self, task: &mut T) -> T::Output
        ensures { T.gives task.old (hash_named self.hash) (code_named self.code) result task.new }
    {
        match self.hash {
            HashName::Sha256 => run_code::<Sha256Hash, T>(self.code, task),
            HashName::Aes128 => run_code::<Aes128Hash, T>(self.code, task),
            HashName::Practice => run_code::<Practice, T>(self.code, task),
        }
    }
}
