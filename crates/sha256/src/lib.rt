//! SHA-256, as FIPS 180-4 defines it, and the tree hash that is made of it. No call refuses.
//! Sections that are named in this crate are those of FIPS 180-4.
#![tactic(auto)]

mod compress;
mod constants;
mod digest;
mod functions;
mod schedule;
mod state;
mod tree_hash;

pub use digest::sha256;
pub use tree_hash::Sha256Hash;
