//! Worked examples of the scheme.
#![tactic(auto)]

ghost use Rattle.std.specs.Prelude.{◌≡◌, ℕ, length};
ghost use Rattle.codes.specs.Codes.{Apart};
ghost use Rattle.examples.specs.Constant.{blind};
ghost use Rattle.examples.specs.Examples.{examples, Worked};
ghost use Rattle.examples.specs.Setting.{AsStated};

mod constant;

pub use constant::ConstantHash;

/// How many worked examples there are. All of them hold, of the hash and the codes that their impls
/// state, as its clauses say; and no code that is blind
/// to the stamp keeps the law of codes. Refuses nothing.
pub fn worked_examples() -> usize
    ensures count { result ≡ length examples }
    ensures stated { AsStated }
    ensures worked { Worked }
    ensures lawless { (f : ℕ → ℕ) → Apart (blind f) → ⊥ }
{
    29
}
