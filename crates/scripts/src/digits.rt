//! Numbers as decimal digits.

ghost use Rattle.std.specs.Prelude.{◌≡◌, ◌≤◌, IfSome};
ghost use Rattle.scripts.specs.Digits.{number_rule};

/// The number that a text of decimal digits names, one at least, where it is at most `most`; leading zeros count for nothing.
/// Rule: `number_rule`.
pub(crate) fn number(text: &[u8], most: u32) -> Option<u32>
    ensures value { result ≡ number_rule most text.now }
    ensures within { IfSome result (λ n. n ≤ most) }
{
    if text.is_empty() {
        return None;
    }
    let mut value: u32 = 0;
    for digit in text {
        let digit = char::from(*digit).to_digit(10)?;
        value = value.checked_mul(10)?.checked_add(digit)?;
    }
    (value <= most).then_some(value)
}
