//! Digits of a stamp, cut from its bits.

ghost use Rattle.std.specs.Prelude.{◌≡◌, ◌/◌, ◌<◌};
ghost use Rattle.codes.specs.Codes.{IsWidth, bits};

/// The bits of a stamp.
pub(crate) const STAMP_BITS: usize = 128;

/// Digit number `j` of a stamp of 16 bytes that is cut into digits of `width` bits, from the
/// highest bit of byte 0 on. No digit crosses from one byte to the next.
pub(crate) fn read_bits(stamp: &[u8; 16], width: usize, j: usize) -> u8
    requires { (IsWidth width) × (j < 128 / width) }
    ensures { result ≡ bits width stamp.now j }
{
    let at = width * j;
    stamp[at / 8] >> (8 - width - at % 8) & ((1 << width) - 1)
}
