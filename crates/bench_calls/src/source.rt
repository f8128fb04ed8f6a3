//! What a caller gives of a key.

use growth::MASKS;

/// What a key is planned and begun with: a struct of C, its fields in this order.
#[repr(C)]
#[derive(Clone, Copy)]
pub struct Source {
    /// The seed, which all secrets are made from.
    pub seed: [u8; 16],
    /// The key of the hash.
    pub hash_key: [u8; 16],
    /// The bitmasks: string 2a is the left mask of level a, string 2a + 1 the right one.
    pub masks: [u8; MASKS],
    /// The height of the plan. A call refuses with 1, `Plan`, one outside 1 to 8.
    pub height: u8,
}
