//! A Merkle tree over a seed: its secrets, its nodes, growing it leaf by leaf (treehash), and what
//! a release of a leaf shows. No call refuses: a `requires` clause says what it needs.
#![tactic(auto)]

mod leaves;
mod origin;
mod shown;
mod stack;

pub use origin::{MASKS, Origin, Tree};
pub use shown::sibling;
pub use stack::{HELD_LEVELS, NODES};
