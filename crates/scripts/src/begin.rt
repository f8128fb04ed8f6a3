//! The first call of a key.

ghost use Rattle.std.specs.Prelude.{◌≡◌};
ghost use Rattle.records.specs.Rules.{seen};
ghost use Rattle.scripts.specs.Begins.{start_of, start_rule, StartRefuses};

use growth::MASKS;
use records::Refusal;
use schemes::{Scheme, UnknownScheme};
use signer::Plan;

/// The numbers of a hash and a code, and what a key is grown from. None of it is checked yet.
#[derive(Clone, Copy)]
pub struct Begin {
    /// The number of the hash.
    pub hash: u8,
    /// The number of the code.
    pub code: u8,
    /// The height of the tree.
    pub height: u8,
    /// The seed, which all secrets are made from.
    pub seed: [u8; 16],
    /// The key of the hash.
    pub hash_key: [u8; 16],
    /// The bitmasks: string 2a is the left mask of level a, string 2a + 1 the right one.
    pub masks: [u8; MASKS],
}

/// What a begin names, where it begins a key.
#[derive(Clone, Copy)]
pub struct Start {
    /// A key of 2^height leaves.
    pub plan: Plan,
    /// The hash and the code.
    pub scheme: Scheme,
}

/// Why a begin begins no key.
#[derive(Clone, Copy, PartialEq, Eq, Debug)]
pub enum NotBegun {
    /// Its plan is refused, with 1, `Plan`.
    Refused(Refusal),
    /// No hash or no code has the number.
    UnknownScheme,
}

impl From<Refusal> for NotBegun {
    ghost use Rattle.std.specs.Prelude.{◌≡◌};
    ghost use Rattle.scripts.specs.declared.begin.NotBegun.TheVariants.{Refused};

    ghost from_gives = { λ refusal not_begun. not_begun ≡ Refused refusal };

    fn from(refusal: Refusal) -> NotBegun {
        NotBegun::Refused(refusal)
    }
}

impl From<UnknownScheme> for NotBegun {
    ghost use Rattle.std.specs.Prelude.{◌≡◌};
    ghost use Rattle.scripts.specs.declared.begin.NotBegun.TheVariants.{UnknownScheme};

    ghost from_gives = { λ _ not_begun. not_begun ≡ UnknownScheme };

    fn from(_unknown: UnknownScheme) -> NotBegun {
        NotBegun::UnknownScheme
    }
}

impl Begin {
    /// The plan and the scheme that a begin names. Refuses with 1, `Plan`, a height outside 1 to 8; and then answers
    /// `NotBegun::UnknownScheme` for a hash or code that is not known. Rule: `start_rule`.
    pub fn start(&self) -> Result<Start, NotBegun>
        ensures value { seen start_of result ≡
            start_rule self.now.hash self.now.code self.now.height }
        ensures refuses { StartRefuses self.now.hash self.now.code self.now.height result }
    {
        let plan = Plan::new(self.height)?;
        let scheme = Scheme::numbered(self.hash, self.code)?;
        Ok(Start { plan, scheme })
    }
}
