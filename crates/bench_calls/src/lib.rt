//! What programs in Rust or C call, by the names of C: bench/ measures and compares by it. `calls` has whole keys; here are
//! chains of steps and of pairs. Each of these takes the key and the strings as slices, and answers one byte of the last
//! string.
#![tactic(auto)]

ghost use Rattle.std.specs.Prelude.{◌≡◌, length, ◌≢◌, slice_index};
ghost use Rattle.sha256.specs.TreeHash.{sha_step, sha_pair};
ghost use Rattle.aes128.specs.Cipher.{aes_step, aes_pair};
ghost use Rattle.tree.specs.Nodes.{raise};

use aes128::Aes128Hash;
use hashes::{ChainHash, TreeHash};
use sha256::Sha256Hash;
use strings::byte_at;
use tree::chains::raise_chain;

mod calls;
mod failure;
mod lives;
mod reply;
mod sizes;
mod source;

pub use calls::{grow_leaves, sign_release, trace_release, verify_release, write_key};
pub use reply::Reply;
pub use sizes::type_size;
pub use source::Source;

// The byte at `place` of the string that is `turns` steps up a hash chain from `string`, under the key. 0 where `key` or
// `string` has not 16 bytes, or `place` is 16 or more.
fn steps<H: ChainHash>(key: &[u8], string: &[u8], turns: u8, place: usize) -> u8
    ensures answered { length key.now ≡ 16 → length string.now ≡ 16 →
        result ≡ slice_index (raise (H.ChainHash.steps key.now) turns string.now) place }
    ensures refused { (length key.now ≡ 16 → length string.now ≢ 16) → result ≡ 0 }
{
    let (Ok(key), Ok(string)) = (<&[u8; 16]>::try_from(key), <&[u8; 16]>::try_from(string)) else {
        return 0;
    };
    byte_at(&raise_chain::<H>(key, string, turns), place)
}

// `turns` pairs, from `left` on: each of the last string and `right`.
fn join_on<H: TreeHash>(key: &[u8; 16], left: &[u8; 16], right: &[u8; 16], turns: u8) -> [u8; 16]
    ensures { result ≡ raise (λ s. H.TreeHash.pairs key.now s right.now) turns left.now }
{
    let mut last = *left;
    for _ in 0..turns {
        last = H::pair(key, &last, right);
    }
    last
}

// The byte at `place` of the last string of `turns` pairs. 0 where `key`, `left` or `right` has not 16 bytes, or `place` is 16
// or more.
fn pairs<H: TreeHash>(key: &[u8], left: &[u8], right: &[u8], turns: u8, place: usize) -> u8
    ensures answered { length key.now ≡ 16 → length left.now ≡ 16 → length right.now ≡ 16 →
        result ≡ slice_index (raise (λ s. H.TreeHash.pairs key.now s right.now) turns left.now)
        place }
    ensures refused { (length key.now ≡ 16 → length left.now ≡ 16 → length right.now ≢ 16) →
        result ≡ 0 }
{
    let (Ok(key), Ok(left)) = (<&[u8; 16]>::try_from(key), <&[u8; 16]>::try_from(left)) else {
        return 0;
    };
    let Ok(right) = <&[u8; 16]>::try_from(right) else {
        return 0;
    };
    byte_at(&join_on::<H>(key, left, right, turns), place)
}

/// Steps of hash 1, SHA-256: the byte at `place` of the string that is `turns` steps up a hash chain from `string`. 0 where
/// `key` or `string` has not 16 bytes, or `place` is 16 or more.
#[unsafe(no_mangle)]
pub extern "C" fn sha256_steps(key: &[u8], string: &[u8], turns: u8, place: usize) -> u8
    ensures answered { length key.now ≡ 16 → length string.now ≡ 16 →
        result ≡ slice_index (raise (sha_step key.now) turns string.now) place }
    ensures refused { (length key.now ≡ 16 → length string.now ≢ 16) → result ≡ 0 }
{
    steps::<Sha256Hash>(key, string, turns, place)
}

/// Steps of hash 2, AES-128, as `sha256_steps`.
#[unsafe(no_mangle)]
pub extern "C" fn aes128_steps(key: &[u8], string: &[u8], turns: u8, place: usize) -> u8
    ensures answered { length key.now ≡ 16 → length string.now ≡ 16 →
        result ≡ slice_index (raise (aes_step key.now) turns string.now) place }
    ensures refused { (length key.now ≡ 16 → length string.now ≢ 16) → result ≡ 0 }
{
    steps::<Aes128Hash>(key, string, turns, place)
}

/// Pairs of hash 1, SHA-256: the byte at `place` of the last string of `turns` pairs, from `left` on, each of the last string
/// and `right`. 0 where `key`, `left` or `right` has not 16 bytes, or `place` is 16 or more.
#[unsafe(no_mangle)]
pub extern "C" fn sha256_pairs(key: &[u8], left: &[u8], right: &[u8], turns: u8, place: usize) -> u8
    ensures answered { length key.now ≡ 16 → length left.now ≡ 16 → length right.now ≡ 16 →
        result ≡ slice_index (raise (λ s. sha_pair key.now s right.now) turns left.now) place }
    ensures refused { (length key.now ≡ 16 → length left.now ≡ 16 → length right.now ≢ 16) →
        result ≡ 0 }
{
    pairs::<Sha256Hash>(key, left, right, turns, place)
}

/// Pairs of hash 2, AES-128, as `sha256_pairs`.
#[unsafe(no_mangle)]
pub extern "C" fn aes128_pairs(key: &[u8], left: &[u8], right: &[u8], turns: u8, place: usize) -> u8
    ensures answered { length key.now ≡ 16 → length left.now ≡ 16 → length right.now ≡ 16 →
        result ≡ slice_index (raise (λ s. aes_pair key.now s right.now) turns left.now) place }
    ensures refused { (length key.now ≡ 16 → length left.now ≡ 16 → length right.now ≢ 16) →
        result ≡ 0 }
{
    pairs::<Aes128Hash>(key, left, right, turns, place)
}
