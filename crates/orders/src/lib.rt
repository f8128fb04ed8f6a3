//! Checks a key record and the orders that follow it, from bytes to outcomes.
#![tactic(auto)]

mod checking;
mod key;
mod order;
mod printing;
mod reading;
mod report;
mod source;
mod splitting;
mod tour;

pub use checking::{check, report_of};
pub use key::KeySummary;
pub use order::Order;
pub use printing::print_report;
pub use reading::LIMIT;
pub use report::Report;
pub use source::Source;
pub use tour::{Orders, Tour};
