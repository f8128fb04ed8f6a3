//! Bytes as hex digits.

ghost use Rattle.std.specs.Prelude.{Some};
ghost use Rattle.std.specs.Fmt.{DisplaysOnOk};
ghost use Rattle.strings.specs.Hex.{two_digits, hex_text};

use std::fmt;

/// Any number of bytes, which `Display` prints as hex digits: two for each byte, the higher one
/// first, in lower case, with nothing between them.
#[derive(Clone, Copy)]
pub struct Hex<'a>(pub &'a [u8]);

// Prints a byte as two digits.
fn write_byte<W: fmt::Write>(byte: u8, f: &mut fmt::Formatter<W>) -> fmt::Result
    ensures { DisplaysOnOk W.write_str_gives f.old result (Some (two_digits byte)) f.new }
{
    write!(f, "{byte:02x}")
}

impl fmt::Display for Hex<'_> {
    ghost output = { λ hex. Some (hex_text hex.0.now) };

    fn fmt<W: fmt::Write>(&self, f: &mut fmt::Formatter<W>) -> fmt::Result {
        for byte in self.0 {
            write_byte(*byte, f)?;
        }
        Ok(())
    }
}
