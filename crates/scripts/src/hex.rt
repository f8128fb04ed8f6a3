//! Bytes as hex digits, two to a byte, in lower case.

ghost use Rattle.std.specs.Prelude.{◌≡◌, ◌<◌, ◌≤◌, length, IfSome};
ghost use Rattle.std.specs.Option.{option_map};
ghost use Rattle.scripts.specs.Hex.{hex_digit, byte_of, hex_bytes, hex_of};
ghost use Rattle.scripts.specs.Sizes.{longest_line};

use crate::LONGEST_RECORD;

// What a digit stands for.
fn value(digit: u8) -> Option<u8>
    ensures value { result ≡ hex_digit digit }
    ensures within { IfSome result (λ n. n < 16) }
{
    match digit {
        b'0'..=b'9' => Some(digit - b'0'),
        b'a'..=b'f' => Some(digit - b'a' + 10),
        _ => None,
    }
}

// The byte that two digits name.
fn byte(high: u8, low: u8) -> Option<u8>
    ensures { result ≡ byte_of (hex_digit high) (hex_digit low) }
{
    Some(16 * value(high)? + value(low)?)
}

// Writes the bytes that a text names, where it is hex digits, two for each byte of `out`. Where it is not, `out` is used up.
fn fill(mut text: &[u8], out: &mut [u8]) -> Option<()>
    ensures { option_map (λ x. out.new) result ≡ hex_of (length out.old) text.entry.now }
{
    for place in out.iter_mut() {
        let [high, low, rest @ ..] = text else {
            return None;
        };
        *place = byte(*high, *low)?;
        text = rest;
    }
    text.is_empty().then_some(())
}

/// The bytes that a text of a line names, where it is hex digits, two for each. They are written into the front of `store`.
/// Rule: `hex_bytes`.
pub(crate) fn bytes<'a>(text: &[u8], store: &'a mut [u8; LONGEST_RECORD]) -> Option<&'a [u8]>
    requires { length text.now ≤ longest_line }
    ensures { option_map (λ b. b.now) result ≡ hex_bytes text.now }
{
    if text.len() % 2 != 0 {
        return None;
    }
    let out = &mut store[..text.len() / 2];
    fill(text, out)?;
    Some(out)
}

/// The `N` bytes that a text names, where it is hex digits, two for each. Rule: `hex_of`.
pub(crate) fn array<const N: usize>(text: &[u8]) -> Option<[u8; N]>
    ensures { result ≡ hex_of N text.now }
{
    let mut out = [0; N];
    fill(text, &mut out)?;
    Some(out)
}
