//! The row of strings of a release, whose siblings are those of the authentication path, and the
//! size of the work buffer that callers lend.

ghost use Rattle.std.specs.Prelude.{◌≡◌, ◌+◌, ◌*◌, ◌<◌, ◌≤◌, length};
ghost use Rattle.tree.specs.Rows.{chain_in, sibling_place, sibling_in, sibling_level};

use codes::Code;
use strings::string_at;

/// The bytes of a work buffer: a string of 16 bytes for each place of a leaf, of which there are
/// 2^8 at most.
pub const WORK: usize = 4096;

/// The string of chain number `chain`, counted from 0, in the row of a release.
pub fn chain_in(row: &[u8], chain: usize) -> [u8; 16]
    requires { 16 * chain + 16 ≤ length row.now }
    ensures { result ≡ chain_in row.now chain }
{
    string_at(row, chain)
}

/// The place of the sibling at `level` in the row of a release under a key of this height: after
/// the strings of the chains, the siblings stand from level `height` up to level 1.
pub fn sibling_place<C: Code>(height: u8, level: usize) -> usize
    requires { level ≤ height }
    ensures { result ≡ sibling_place C.Code.COUNT height level }
{
    C::COUNT + (height as usize - level)
}

/// The sibling at `level`, from 1 to `height`, in the row of a release under a key of this height.
pub fn sibling_in<C: Code>(height: u8, row: &[u8], level: usize) -> [u8; 16]
    requires within { (0 < level) × (level ≤ height) }
    requires long { 16 * (C.Code.COUNT + height) ≤ length row.now }
    ensures { result ≡ sibling_in C.Code.COUNT height row.now level }
{
    string_at(row, sibling_place::<C>(height, level))
}

/// The level of the sibling at `place` in the row of a release under a key of this height; the
/// place is past those of the chains.
pub fn sibling_level<C: Code>(height: u8, place: usize) -> usize
    requires { (C.Code.COUNT ≤ place) × (place < C.Code.COUNT + height) }
    ensures { result ≡ sibling_level C.Code.COUNT height place }
{
    height as usize - (place - C::COUNT)
}
