//! What a code is, and the laws that it keeps.

ghost use Rattle.std.specs.Prelude.{◌≡◌, ℕ, ◌^◌, ◌<◌, ◌≤◌, List};
ghost use Rattle.codes.specs.Codes.{Apart};
ghost use Rattle.strings.specs.Strings.{IsString};

/// A code: which digit a stamp has at a place. Its meaning is its numbers and the function
/// `digits`.
pub trait Code {
    /// The number by which key records name the code.
    const NUMBER: u8;

    /// The same number, in clauses.
    ghost NUMBER: { ℕ };

    /// How many digits a stamp has: as many as a leaf has chains.
    const COUNT: usize;

    /// The same count, in clauses.
    ghost COUNT: { ℕ };

    /// The largest digit: as many as a chain has steps.
    const TOP: u8;

    /// The same digit, in clauses.
    ghost TOP: { ℕ };

    /// The levels of the tree inside a leaf, which joins the ends of the chains.
    const LEVELS: u8;

    /// The same levels, in clauses.
    ghost LEVELS: { ℕ };

    /// What `digit` gives, of stamp and place.
    ghost digits: { List ℕ → ℕ → ℕ };

    /// The digit of a stamp of 16 bytes at a place, counted from 0: from 0 to `TOP`, and `TOP` from
    /// place `COUNT` on.
    fn digit(stamp: &[u8; 16], place: usize) -> u8
        ensures { result ≡ digits stamp.now place };

    /// The tree inside a leaf has room for all chains, of which there is one at least.
    ghost count_range: { (1 ≤ COUNT) × (COUNT ≤ 2 ^ LEVELS) };

    /// The largest digit lies from 1 to 15.
    ghost top_range: { (1 ≤ TOP) × (TOP ≤ 15) };

    /// The levels lie from 1 to 8.
    ghost level_range: { (1 ≤ LEVELS) × (LEVELS ≤ 8) };

    /// The number is one byte.
    ghost number_range: { NUMBER < 256 };

    /// No digit is above the largest.
    ghost within: { (m : List ℕ) (k : ℕ) → IsString m → digits m k ≤ TOP };

    /// Past the last digit the answer is the largest.
    ghost past: { (m : List ℕ) (k : ℕ) → IsString m → COUNT ≤ k → digits m k ≡ TOP };

    /// Of two different stamps, each has a digit smaller than the other's at the same place.
    ghost apart: { Apart digits };
}
