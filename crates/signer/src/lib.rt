//! The signer of a hash-tree signature scheme (Merkle's), which keeps state: a key is planned, begun,
//! grown, put into service, signs, and is retired. Each state is a type of its own, and a call that
//! ends a state takes the value.
//!
//! A seed, a hash key, a stamp and a node have 16 bytes each, and the masks 512 (`growth::MASKS`).
//! The caller lends a work buffer of 4,096 bytes (`tree::rows::WORK`) and a report of 64
//! (`compare::REPORT`). What a work buffer holds before a call plays no part; after the call it is
//! all zero, refused or not. No call allocates.
#![tactic(auto)]

mod ledger;
mod maker;
mod plan;
mod retired;
mod scratch;
mod shown;
mod signer;

pub use maker::Maker;
pub use plan::Plan;
pub use retired::Retired;
pub use signer::Signer;
