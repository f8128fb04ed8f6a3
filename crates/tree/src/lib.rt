//! Hash chains, the tree inside a leaf (an L-tree), and the authentication path from a leaf to the
//! root. No call refuses: a `requires` clause says what it needs.
#![tactic(auto)]

pub mod chains;
pub mod nodes;
mod parameters;
mod paths;
mod roots;
pub mod rows;

pub use parameters::Parameters;
