//! The Lamport-Diffie code.

ghost use Rattle.codes.specs.Codes.{lamport_diffie};
ghost use Rattle.codes.specs.Laws.{lamport_diffie-apart};
ghost use Rattle.std.proofs.Common.{rules};

use crate::Code;
use crate::bits::read_bits;

/// The Lamport-Diffie code, number 1: each bit of the stamp, followed by one minus it.
pub struct LamportDiffie;

impl Code for LamportDiffie {
    const NUMBER: u8 = 1;

    ghost NUMBER = { 1 };

    const COUNT: usize = 256;

    ghost COUNT = { 256 };

    const TOP: u8 = 1;

    ghost TOP = { 1 };

    const LEVELS: u8 = 8;

    ghost LEVELS = { 8 };

    ghost digits = { lamport_diffie };

    ghost count_range = { Prim.search rules };

    ghost top_range = { Prim.search rules };

    ghost level_range = { Prim.search rules };

    ghost number_range = { Prim.search rules };

    ghost within = { Prim.search rules };

    ghost past = { Prim.search rules };

    ghost apart = { lamport_diffie-apart };

    fn digit(stamp: &[u8; 16], place: usize) -> u8 {
        if place >= Self::COUNT {
            return Self::TOP;
        }
        let bit = read_bits(stamp, 1, place / 2);
        if place % 2 == 0 { bit } else { 1 - bit }
    }
}
