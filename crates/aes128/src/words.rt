//! Words of four bytes: the columns of a state, and the words of the key schedule.

ghost use Rattle.std.specs.Prelude.{◌≡◌, ◌<◌};
ghost use Rattle.aes128.specs.Schedule.{rot_word, sub_word};
ghost use Rattle.aes128.specs.State.{column};
ghost use Rattle.aes128.specs.Pieces.{columns};

use crate::sbox::sub_byte;

/// Column `c` of a state or a round key, from 0 to 3.
pub(crate) fn column_of(state: &[u8; 16], c: usize) -> [u8; 4]
    requires { c < 4 }
    ensures { result ≡ column state.now c }
{
    state.as_chunks::<4>().0[c]
}

/// The state or the round key with these four columns.
pub(crate) fn from_columns(a: &[u8; 4], b: &[u8; 4], c: &[u8; 4], d: &[u8; 4]) -> [u8; 16]
    ensures { result ≡ columns a.now b.now c.now d.now }
{
    [
        a[0], a[1], a[2], a[3], b[0], b[1], b[2], b[3], c[0], c[1], c[2], c[3], d[0], d[1], d[2],
        d[3],
    ]
}

/// RotWord of FIPS 197, section 5.2: each byte moves one place to the left.
pub(crate) fn rot_word(w: &[u8; 4]) -> [u8; 4]
    ensures { result ≡ rot_word w.now }
{
    [w[1], w[2], w[3], w[0]]
}

/// SubWord of FIPS 197, section 5.2: each byte substituted.
pub(crate) fn sub_word(w: &[u8; 4]) -> [u8; 4]
    ensures { result ≡ sub_word w.now }
{
    w.map(sub_byte)
}
