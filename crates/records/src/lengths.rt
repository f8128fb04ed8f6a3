//! How long the records are, in bytes.

ghost use Rattle.std.specs.Prelude.{◌≡◌};
ghost use Rattle.records.specs.Records.{key_length, release_length};

use crate::layout;
use codes::Code;

/// The greatest height of a key: its tree has 256 leaves then.
pub const TALLEST: u8 = 8;

/// The bytes of the longest release record: it has 256 chains and 8 siblings.
pub const LONGEST_RELEASE: usize = 4232;

// The bytes before the row, and a string for each chain and each sibling.
const _: () = prove!(LONGEST_RELEASE == layout::ROW + 16 * (256 + TALLEST as usize));

/// The bytes of the key record of a key of this height: 42, and 32 for each level of its tree and
/// of the tree inside a leaf.
pub fn key_length<C: Code>(height: u8) -> usize
    ensures { result ≡ key_length height C.Code.LEVELS }
{
    layout::BESIDE_MASKS + 32 * (height as usize + C::LEVELS as usize)
}

/// The bytes of a release record under a key of this height: 8, and 16 for each chain and each
/// level of its tree.
pub fn release_length<C: Code>(height: u8) -> usize
    ensures { result ≡ release_length C.Code.COUNT height }
{
    layout::ROW + 16 * (C::COUNT + height as usize)
}
