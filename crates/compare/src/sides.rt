//! The two sides of a comparison: what the signer's seed gives, and what the record gives.

use crate::Find;

/// A string on the signer's side and on the record's.
#[derive(Clone, Copy)]
pub(crate) struct Sides {
    /// What the signer's seed gives.
    pub ours: [u8; 16],
    /// What the record gives.
    pub theirs: [u8; 16],
}

/// A string on both sides, and the find on the way to it.
#[derive(Clone, Copy)]
pub(crate) struct Compared {
    /// The string.
    pub sides: Sides,
    /// Where two that differ have one value; none where nothing of that kind is found.
    pub find: Option<Find>,
}
