//! AES-128, as FIPS 197 defines it, and the tree hash that is made from it. No call refuses.
//! Sections that are named in this crate are those of FIPS 197.
//! Bytes are substituted by a table, so the places that are read depend on the key and the block:
//! no contract speaks of time.
#![tactic(auto)]

mod cipher;
mod key_schedule;
mod rounds;
mod sbox;
mod tree_hash;
mod twice;
mod words;

pub use cipher::encrypt;
pub use key_schedule::last_round_key;
pub use tree_hash::Aes128Hash;
