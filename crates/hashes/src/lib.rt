//! Keyed hashes on 16-byte strings: what chains and trees ask of one, and the practice hash. No
//! call refuses.
#![tactic(auto)]

ghost use Rattle.std.specs.Prelude.{◌≡◌, ℕ, ◌<◌, List};
ghost use Rattle.strings.specs.Strings.{IsString};

mod practice;

pub use practice::Practice;

/// A chain hash steps from string to string under a key. Its meaning is its number and the
/// function `steps`.
pub trait ChainHash {
    /// The number by which key records name the hash.
    const NUMBER: u8;

    /// The same number, in clauses.
    ghost NUMBER: { ℕ };

    /// What `step` gives, of key and string.
    ghost steps: { List ℕ → List ℕ → List ℕ };

    /// One step of a chain: a key and a string of 16 bytes each give a string of 16 bytes.
    fn step(key: &[u8; 16], string: &[u8; 16]) -> [u8; 16]
        ensures { result ≡ steps key.now string.now };

    /// The number is one byte.
    ghost number_range: { NUMBER < 256 };

    /// Of strings, a step gives a string.
    ghost gives: { (k s : List ℕ) → IsString k → IsString s → IsString (steps k s) };
}

/// A tree hash is a chain hash that can also join two strings, as a node of a tree joins its
/// children. Its meaning is that of the chain hash and the function `pairs`.
pub trait TreeHash: ChainHash {
    /// What `pair` gives, of key, left string and right string.
    ghost pairs: { List ℕ → List ℕ → List ℕ → List ℕ };

    /// The two strings joined: a key, a left and a right string of 16 bytes each give a string of
    /// 16 bytes.
    fn pair(key: &[u8; 16], left: &[u8; 16], right: &[u8; 16]) -> [u8; 16]
        ensures { result ≡ pairs key.now left.now right.now };

    /// Of strings, a pair gives a string.
    ghost joins: { (k l r : List ℕ) → IsString k → IsString l → IsString r → IsString (pairs k l r) };
}
