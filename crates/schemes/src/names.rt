//! The names of the hashes and codes.

use crate::UnknownScheme;
use aes128::Aes128Hash;
use codes::{Code, DigitWidth, FourBits, LamportDiffie, TwoBits};
use hashes::{ChainHash, Practice};
use sha256::Sha256Hash;

/// The hashes that a key record can name.
#[derive(Clone, Copy, PartialEq, Eq, Debug)]
pub enum HashName {
    /// Hash 1, the tree hash that is made of SHA-256.
    Sha256,
    /// Hash 2, the tree hash that is made of AES-128.
    Aes128,
    /// Hash 3, the practice hash: it can be followed by hand, and protects nothing.
    Practice,
}

/// The codes that a key record can name.
#[derive(Clone, Copy, PartialEq, Eq, Debug)]
pub enum CodeName {
    /// Code 1, Lamport-Diffie: 256 chains of 1 step.
    LamportDiffie,
    /// Code 2, Winternitz with w = 2: 69 chains of 3 steps.
    Winternitz2,
    /// Code 3, Winternitz with w = 4: 35 chains of 15 steps.
    Winternitz4,
}

/// The hash with this number, 1 to 3; the error for any other. Rule: `hash_name`.
impl TryFrom<u8> for HashName {
    ghost use Rattle.std.specs.Prelude.{◌≡◌};
    ghost use Rattle.schemes.specs.Names.{hash_name};

    type Error = UnknownScheme;

    ghost try_from_gives = { λ number name. name ≡ hash_name number };

    fn try_from(number: u8) -> Result<HashName, UnknownScheme> {
        match number {
            Sha256Hash::NUMBER => Ok(HashName::Sha256),
            Aes128Hash::NUMBER => Ok(HashName::Aes128),
            Practice::NUMBER => Ok(HashName::Practice),
            _ => Err(UnknownScheme),
        }
    }
}

/// The code with this number, 1 to 3; the error for any other. Rule: `code_name`.
impl TryFrom<u8> for CodeName {
    ghost use Rattle.std.specs.Prelude.{◌≡◌};
    ghost use Rattle.schemes.specs.Names.{code_name};

    type Error = UnknownScheme;

    ghost try_from_gives = { λ number name. name ≡ code_name number };

    fn try_from(number: u8) -> Result<CodeName, UnknownScheme> {
        match number {
            LamportDiffie::NUMBER => Ok(CodeName::LamportDiffie),
            TwoBits::NUMBER => Ok(CodeName::Winternitz2),
            FourBits::NUMBER => Ok(CodeName::Winternitz4),
            _ => Err(UnknownScheme),
        }
    }
}
