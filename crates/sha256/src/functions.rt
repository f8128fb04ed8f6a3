//! The functions on words that SHA-256 is made of (FIPS 180-4, section 4.1.2). Each takes and gives
//! words of 32 bits.

ghost use Rattle.std.specs.Prelude.{◌≡◌};
ghost use Rattle.sha256.specs.Functions as spec;

/// Ch: where `x` has a bit 1, the bit of `y`; elsewhere that of `z`.
pub(crate) fn ch(x: u32, y: u32, z: u32) -> u32
    ensures { result ≡ spec.ch x y z }
{
    (x & y) ^ (!x & z)
}

/// Maj: the bit that most of the three words have.
pub(crate) fn maj(x: u32, y: u32, z: u32) -> u32
    ensures { result ≡ spec.maj x y z }
{
    (x & y) ^ (x & z) ^ (y & z)
}

/// Σ0, of a working variable.
pub(crate) fn big_sigma0(x: u32) -> u32
    ensures { result ≡ spec.big_sigma0 x }
{
    x.rotate_right(2) ^ x.rotate_right(13) ^ x.rotate_right(22)
}

/// Σ1, of a working variable.
pub(crate) fn big_sigma1(x: u32) -> u32
    ensures { result ≡ spec.big_sigma1 x }
{
    x.rotate_right(6) ^ x.rotate_right(11) ^ x.rotate_right(25)
}

/// σ0, of a word of the schedule.
pub(crate) fn small_sigma0(x: u32) -> u32
    ensures { result ≡ spec.small_sigma0 x }
{
    x.rotate_right(7) ^ x.rotate_right(18) ^ (x >> 3)
}

/// σ1, of a word of the schedule.
pub(crate) fn small_sigma1(x: u32) -> u32
    ensures { result ≡ spec.small_sigma1 x }
{
    x.rotate_right(17) ^ x.rotate_right(19) ^ (x >> 10)
}
