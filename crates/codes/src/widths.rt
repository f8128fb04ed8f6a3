//! The widths of Winternitz digits.

ghost use Rattle.std.specs.Prelude.{ℕ, ◌+◌, ◌-◌, ◌*◌, ◌/◌, ◌^◌, ◌<◌, ◌≤◌, refl};
ghost use Rattle.codes.specs.Codes.{IsWidth};
ghost use Rattle.std.proofs.Common.{lit<, lit≤};

/// A width of Winternitz digits, the parameter w of the scheme, and what a code with such digits
/// has.
pub trait DigitWidth {
    /// The number by which key records name the code.
    const NUMBER: u8;

    /// The same number, in clauses.
    ghost NUMBER: { ℕ };

    /// The bits of a digit, w.
    const WIDTH: usize;

    /// The same width, in clauses.
    ghost WIDTH: { ℕ };

    /// How many ending digits there are: those of the checksum.
    const ENDS: usize;

    /// The same count, in clauses.
    ghost ENDS: { ℕ };

    /// The levels of the tree inside a leaf, which joins the ends of the chains.
    const LEVELS: u8;

    /// The same levels, in clauses.
    ghost LEVELS: { ℕ };

    /// The number is one byte.
    ghost number_range: { NUMBER < 256 };

    /// A whole number of digits makes a byte.
    ghost wide: { IsWidth WIDTH };

    /// The largest digit lies from 1 to 15.
    ghost top_range: { (1 ≤ 2 ^ WIDTH - 1) × (2 ^ WIDTH - 1 ≤ 15) };

    /// The checksum fits the ending digits.
    ghost room: { 128 / WIDTH * 2 ^ WIDTH < 2 ^ (WIDTH * ENDS) };

    /// The ending digits take less than 16 bits.
    ghost short: { WIDTH * ENDS < 16 };

    /// All digits fit the levels inside a leaf.
    ghost count_range: { (1 ≤ 128 / WIDTH + ENDS) × (128 / WIDTH + ENDS ≤ 2 ^ LEVELS) };

    /// The levels lie from 1 to 8.
    ghost level_range: { (1 ≤ LEVELS) × (LEVELS ≤ 8) };
}

/// Digits of two bits: 64 of a stamp, and 5 of its checksum.
pub struct TwoBits;

impl DigitWidth for TwoBits {
    const NUMBER: u8 = 2;

    ghost NUMBER = { 2 };

    const WIDTH: usize = 2;

    ghost WIDTH = { 2 };

    const ENDS: usize = 5;

    ghost ENDS = { 5 };

    const LEVELS: u8 = 7;

    ghost LEVELS = { 7 };

    ghost number_range = { lit< tt };

    ghost wide = { (refl, lit< tt) };

    ghost top_range = { (lit≤ tt, lit≤ tt) };

    ghost room = { lit< tt };

    ghost short = { lit< tt };

    ghost count_range = { (lit≤ tt, lit≤ tt) };

    ghost level_range = { (lit≤ tt, lit≤ tt) };
}

/// Digits of four bits: 32 of a stamp, and 3 of its checksum.
pub struct FourBits;

impl DigitWidth for FourBits {
    const NUMBER: u8 = 3;

    ghost NUMBER = { 3 };

    const WIDTH: usize = 4;

    ghost WIDTH = { 4 };

    const ENDS: usize = 3;

    ghost ENDS = { 3 };

    const LEVELS: u8 = 6;

    ghost LEVELS = { 6 };

    ghost number_range = { lit< tt };

    ghost wide = { (refl, lit< tt) };

    ghost top_range = { (lit≤ tt, lit≤ tt) };

    ghost room = { lit< tt };

    ghost short = { lit< tt };

    ghost count_range = { (lit≤ tt, lit≤ tt) };

    ghost level_range = { (lit≤ tt, lit≤ tt) };
}
