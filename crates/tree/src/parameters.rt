//! The parameters of a tree, which hold no secret.

/// What a tree is made with, apart from its secrets; whoever has a key record has these too. They
/// are lent.
#[derive(Clone, Copy)]
pub struct Parameters<'a> {
    /// The hash key, 16 bytes, under which chains step and nodes join.
    pub hash_key: &'a [u8; 16],
    /// The bitmasks, 32 bytes for each level from the root down: string 2a is the left mask of
    /// level a, string 2a + 1 the right one.
    pub masks: &'a [u8],
    /// The tree has 2^height leaves.
    pub height: u8,
}
