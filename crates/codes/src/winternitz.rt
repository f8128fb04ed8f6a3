//! The Winternitz codes, over a width of digits.

ghost use Rattle.std.specs.Prelude.{◌≡◌, ◌+◌, ◌-◌, ◌*◌, ◌/◌, ◌^◌, ◌<◌};
ghost use Rattle.codes.specs.Codes.{checksum, cut, winternitz};
ghost use Rattle.codes.specs.Laws.{winternitz-within, winternitz-past, winternitz-apart};

use crate::bits::{STAMP_BITS, read_bits};
use crate::{Code, DigitWidth, FourBits, TwoBits};
use std::marker::PhantomData;

/// The Winternitz code over a width: the stamp in digits of that width, and then its checksum in
/// such digits, the highest first.
pub struct Winternitz<W> {
    /// The width. Nothing makes a value of a code.
    pub width: PhantomData<W>,
}

/// The Winternitz code with w = 2, number 2: 64 digits of the stamp, and 5 of its checksum.
pub type Winternitz2 = Winternitz<TwoBits>;

/// The Winternitz code with w = 4, number 3: 32 digits of the stamp, and 3 of its checksum.
pub type Winternitz4 = Winternitz<FourBits>;

impl<W: DigitWidth> Winternitz<W> {
    // The checksum of a stamp: what its digits lack to 2 ^ WIDTH, in sum.
    fn checksum(stamp: &[u8; 16]) -> u16
        ensures { result ≡ checksum W.WIDTH (cut W.WIDTH stamp.now) }
    {
        (0..STAMP_BITS / W::WIDTH)
            .map(
                |j: usize| -> u16
                    requires { j < 128 / W.WIDTH }
                { (1 << W::WIDTH) - u16::from(read_bits(stamp, W::WIDTH, j)) },
            )
            .sum()
    }
}

impl<W: DigitWidth> Code for Winternitz<W> {
    const NUMBER: u8 = W::NUMBER;

    ghost NUMBER = { W.NUMBER };

    const COUNT: usize = STAMP_BITS / W::WIDTH + W::ENDS;

    ghost COUNT = { 128 / W.WIDTH + W.ENDS };

    const TOP: u8 = (1 << W::WIDTH) - 1;

    ghost TOP = { 2 ^ W.WIDTH - 1 };

    const LEVELS: u8 = W::LEVELS;

    ghost LEVELS = { W.LEVELS };

    ghost digits = { winternitz W.WIDTH W.ENDS };

    ghost count_range = { W.count_range };

    ghost top_range = { W.top_range };

    ghost level_range = { W.level_range };

    ghost number_range = { W.number_range };

    ghost within = { λ m k s. winternitz-within W.WIDTH W.ENDS m k };

    ghost past = { λ m k s h. winternitz-past W.WIDTH W.ENDS m k h };

    ghost apart = { winternitz-apart W.WIDTH W.ENDS W.wide W.room };

    fn digit(stamp: &[u8; 16], place: usize) -> u8 {
        let front = STAMP_BITS / W::WIDTH;
        if place < front {
            return read_bits(stamp, W::WIDTH, place);
        }
        let end = place - front;
        if end >= W::ENDS {
            return Self::TOP;
        }
        (Self::checksum(stamp) >> (W::WIDTH * (W::ENDS - 1 - end)) & u16::from(Self::TOP)) as u8
    }
}
