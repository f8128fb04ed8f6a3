//! The records as bytes: framing, kinds, layout and lengths, refusals, and the reading and writing
//! of both kinds, key records and release records. Nothing is copied out of a record that is read.
#![tactic(auto)]

mod header;
pub mod key;
mod kind;
pub mod layout;
mod lengths;
mod refusal;
mod release;

pub use header::{Header, body_of, split_header};
pub use kind::RecordKind;
pub use lengths::{LONGEST_RELEASE, TALLEST, key_length, release_length};
pub use refusal::Refusal;
pub use release::{Release, ReleaseRow, parts_of, read_release, write_release};
