//! Comparing a release record with what a signer's seed and ledger give: where both lead to one
//! root, yet differ, the hash gave way, and what is found says where. No call refuses.
#![tactic(auto)]

mod chains;
mod comparing;
mod pairs;
mod paths;
mod reports;
mod sides;
mod subject;
mod verdict;

pub use comparing::Comparison;
use sides::{Compared, Sides};
pub use subject::Subject;
pub use verdict::{Find, REPORT, Verdict};
