//! The hashes and codes that records name by number, and work that is done with any of them.
#![tactic(auto)]

mod names;
mod scheme;
mod unknown;

pub use names::{CodeName, HashName};
pub use scheme::{Scheme, Task};
pub use unknown::UnknownScheme;
