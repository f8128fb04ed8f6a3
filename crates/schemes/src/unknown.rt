//! The answer to a number that no hash or no code has.

ghost use Rattle.std.specs.Prelude.{Some, codes};

use std::fmt;

/// No hash has the number, or no code. It is none of the refusals, and has no number; it prints as `unknown scheme`.
#[derive(Clone, Copy, PartialEq, Eq, Debug)]
pub struct UnknownScheme;

impl fmt::Display for UnknownScheme {
    ghost output = { λ _. Some (codes "unknown scheme") };

    fn fmt<W: fmt::Write>(&self, f: &mut fmt::Formatter<W>) -> fmt::Result {
        f.write_str("unknown scheme")
    }
}

impl std::error::Error for UnknownScheme {}
