//! Hash chains, whose tops are the one-time strings of a leaf.

ghost use Rattle.std.specs.Prelude.{◌≡◌, ℕ, ◌-◌, ◌*◌, ◌<◌, ◌≤◌, length};
ghost use Rattle.strings.specs.Strings.{string_at};
ghost use Rattle.tree.specs.Nodes.{raise, one_time};
ghost use Rattle.tree.specs.Rows.{chain_in, most_places, work_size};

use crate::rows::{WORK, chain_in};
use codes::Code;
use hashes::ChainHash;
use strings::put_string;

/// The string `times` steps up a hash chain from `string`: `times` calls of the hash under the hash
/// key, 16 bytes in and 16 out (`raise` in specs/). Of 0 steps it is `string` itself.
pub fn raise_chain<H: ChainHash>(key: &[u8; 16], string: &[u8; 16], times: u8) -> [u8; 16]
    ensures { result ≡ raise (H.ChainHash.steps key.now) times string.now }
{
    let mut raised = *string;
    for _ in 0..times {
        raised = H::step(key, &raised);
    }
    raised
}

/// The top of the chain at `place`, counted from 0, from its string at the height of the stamp's
/// digit there: that string is raised by the steps that the digit lacks of the top digit, as a
/// verifier of Lamport-Diffie or Winternitz does.
pub fn raise_to_top<H: ChainHash, C: Code>(
    key: &[u8; 16],
    stamp: &[u8; 16],
    place: usize,
    string: &[u8; 16],
) -> [u8; 16]
    ensures { result ≡ raise (H.ChainHash.steps key.now)
        (C.Code.TOP - C.Code.digits stamp.now place) string.now }
{
    raise_chain::<H>(key, string, C::TOP - C::digit(stamp, place))
}

/// Fills the row, 4,096 bytes, with the one-time strings of a leaf (`one_time` in specs/). `shown`
/// has a string of 16 bytes for each chain, at the height of the stamp's digit; each is raised to
/// the top of its chain. Past the last chain the row is zero: the L-tree wants 2^levels strings.
pub fn fill_one_time_strings<H: ChainHash, C: Code>(
    key: &[u8; 16],
    stamp: &[u8; 16],
    shown: &[u8],
    row: &mut [u8; WORK],
)
    requires { 16 * C.Code.COUNT ≤ length shown.now }
    ensures long { length row.new ≡ work_size }
    ensures strings { (k : ℕ) → k < most_places →
        string_at row.new k ≡ one_time (H.ChainHash.steps key.now) C.Code.COUNT C.Code.TOP
        (C.Code.digits stamp.now) (chain_in shown.now) k }
{
    *row = [0; WORK];
    for chain in 0..C::COUNT {
        let top = raise_to_top::<H, C>(key, stamp, chain, &chain_in(shown, chain));
        put_string(row, chain, &top);
    }
}
