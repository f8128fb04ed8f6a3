//! The verifier: opens key records as they lie in the caller's bytes, and says whether a release
//! record opens a box. It changes no byte that it is lent.
#![tactic(auto)]

mod key;
mod opening;
mod reading;
mod verifying;

pub use key::OpenedKey;
pub use opening::{open, suits};
pub use reading::read_under;
pub use verifying::verify;
