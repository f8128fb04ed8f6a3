//! Why a call refuses.

ghost use Rattle.std.specs.Prelude.{◌≡◌, ℕ, List, Some};
ghost use Rattle.std.specs.Fmt.{decimal};
ghost use Rattle.records.specs.Causes.{Refuses};
ghost use Rattle.records.specs.Conditions.{header_causes, open_causes, release_causes};
ghost use Rattle.records.specs.Refusals.{refusal_number};
ghost use Rattle.records.specs.Rules.{header_rule, open_rule, release_rule};
ghost use Rattle.records.specs.declared.kind.RecordKind.{RecordKind};

use std::fmt;

/// Why a call refuses; each case has one number.
#[derive(Clone, Copy, PartialEq, Eq, Debug)]
pub enum Refusal {
    /// A height outside 1 to 8, of a tree that is planned.
    Plan = 1,
    /// All leaves of a key are in.
    Grown = 2,
    /// All leaves of a signer are spent.
    Spent = 3,
    /// An output that is shorter than the record.
    Output = 4,
    /// A leaf to skip to that is below the next one, or above the number of leaves.
    Skip = 5,
    /// Fewer than 10 bytes, or a length field that differs from the number of bytes given.
    Length = 6,
    /// Another kind of record than the wanted one.
    Kind = 7,
    /// Another hash, code or number of levels than the verifier's.
    Parameters = 8,
    /// A height outside 1 to 8, or a spare byte other than 0.
    Height = 9,
    /// A byte count other than the layout's.
    Layout = 10,
    /// A leaf number past the last leaf.
    Leaf = 11,
    /// A rebuilt root unlike the key's.
    Root = 12,
}

impl Refusal {
    /// The number by which programs name the refusal, from 1 to 12 (`refusal_number` in specs/).
    /// Each reading of a record refuses with the first number in its list whose condition holds,
    /// and answers where none does: `header`, `open` and `release` say so of the three lists.
    pub fn number(self) -> u8
        ensures value { result ≡ refusal_number self }
        ensures header { (kind : RecordKind) (bytes : List ℕ) →
            Refuses (header_causes kind bytes) (header_rule kind bytes) }
        ensures open { (hash code levels : ℕ) (bytes : List ℕ) →
            Refuses (open_causes hash code levels bytes) (open_rule hash code levels bytes) }
        ensures release { (count h : ℕ) (bytes : List ℕ) →
            Refuses (release_causes count h bytes) (release_rule count h bytes) }
    {
        self as u8
    }
}

/// A refusal prints as its number, in decimal digits.
impl fmt::Display for Refusal {
    ghost output = { λ refusal. Some (decimal (refusal_number refusal)) };

    fn fmt<W: fmt::Write>(&self, f: &mut fmt::Formatter<W>) -> fmt::Result {
        self.number().fmt(f)
    }
}

impl std::error::Error for Refusal {}
