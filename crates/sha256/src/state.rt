//! The hash value and the working variables of a compression.

/// Eight words: the hash value between two blocks, or the working variables a to h (FIPS 180-4,
/// section 6.2.2) between two rounds.
#[derive(Clone, Copy)]
pub(crate) struct State {
    pub(crate) a: u32,
    pub(crate) b: u32,
    pub(crate) c: u32,
    pub(crate) d: u32,
    pub(crate) e: u32,
    pub(crate) f: u32,
    pub(crate) g: u32,
    pub(crate) h: u32,
}
