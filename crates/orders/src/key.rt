//! What a key record names.

use std::fmt;

/// What an opened key record names: the numbers of hash and code, and the height.
#[derive(Clone, Copy)]
pub struct KeySummary {
    /// The number of the hash: 1 to 3.
    pub hash: u8,
    /// The number of the code: 1 to 3.
    pub code: u8,
    /// The height of the tree: 1 to 8.
    pub height: u8,
}

// The numbers and the height, one space apart. Rule: `summary_text`.
impl fmt::Display for KeySummary {
    ghost use Rattle.std.specs.Prelude.{Some};
    ghost use Rattle.orders.specs.Texts.{summary_text};

    ghost output = { λ key. Some (summary_text key) };

    fn fmt<W: fmt::Write>(&self, f: &mut fmt::Formatter<W>) -> fmt::Result {
        let KeySummary { hash, code, height } = *self;
        write!(f, "{hash} {code} {height}")
    }
}
