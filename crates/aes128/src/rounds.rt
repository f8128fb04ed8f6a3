//! The steps of a round, sections 5.1.1 to 5.1.4. A state has 16 bytes, column after column: byte
//! 4c + r stands in row r and column c.

ghost use Rattle.std.specs.Prelude.{◌≡◌};
ghost use Rattle.aes128.specs.Field.{sub};
ghost use Rattle.aes128.specs.State.{sub_bytes, shift_rows, mixed, mix_columns};
ghost use Rattle.aes128.specs.State.{full_round, final_round};
ghost use Rattle.aes128.specs.Pieces.{mixed_column};
ghost use Rattle.aes128.specs.Schedule.{sub_word};

use crate::sbox::sub_byte;
use crate::twice::sub_twice;
use crate::words::{column_of, from_columns, sub_word};
use strings::xor;

// SubBytes: each byte substituted.
fn sub_bytes(state: &[u8; 16]) -> [u8; 16]
    ensures { result ≡ sub_bytes state.now }
{
    from_columns(
        &sub_word(&column_of(state, 0)),
        &sub_word(&column_of(state, 1)),
        &sub_word(&column_of(state, 2)),
        &sub_word(&column_of(state, 3)),
    )
}

// ShiftRows: row r moves r places to the left.
fn shift_rows(state: &[u8; 16]) -> [u8; 16]
    ensures { result ≡ shift_rows state.now }
{
    from_columns(
        &[state[0], state[5], state[10], state[15]],
        &[state[4], state[9], state[14], state[3]],
        &[state[8], state[13], state[2], state[7]],
        &[state[12], state[1], state[6], state[11]],
    )
}

// Twice a, three times b, c and d in sum, each byte substituted.
fn mix(a: u8, b: u8, c: u8, d: u8) -> u8
    ensures { result ≡ mixed (sub a) (sub b) (sub c) (sub d) }
{
    sub_twice(a) ^ (sub_twice(b) ^ sub_byte(b)) ^ sub_byte(c) ^ sub_byte(d)
}

// A column, substituted and mixed.
fn mix_column(column: &[u8; 4]) -> [u8; 4]
    ensures { result ≡ mixed_column (sub_word column.now) }
{
    let [a, b, c, d] = *column;
    [
        mix(a, b, c, d),
        mix(b, c, d, a),
        mix(c, d, a, b),
        mix(d, a, b, c),
    ]
}

// SubBytes and MixColumns: each column, substituted and mixed.
fn mix_columns(state: &[u8; 16]) -> [u8; 16]
    ensures { result ≡ mix_columns (sub_bytes state.now) }
{
    from_columns(
        &mix_column(&column_of(state, 0)),
        &mix_column(&column_of(state, 1)),
        &mix_column(&column_of(state, 2)),
        &mix_column(&column_of(state, 3)),
    )
}

/// A round before the last: SubBytes, ShiftRows, MixColumns and AddRoundKey.
pub(crate) fn full_round(state: &[u8; 16], round_key: &[u8; 16]) -> [u8; 16]
    ensures { result ≡ full_round state.now round_key.now }
{
    // The bytes are substituted as the columns are mixed, and so after the rows are shifted, which
    // comes to the same.
    xor(&mix_columns(&shift_rows(state)), round_key)
}

/// The last round, which mixes no columns: SubBytes, ShiftRows and AddRoundKey.
pub(crate) fn final_round(state: &[u8; 16], round_key: &[u8; 16]) -> [u8; 16]
    ensures { result ≡ final_round state.now round_key.now }
{
    xor(&shift_rows(&sub_bytes(state)), round_key)
}
