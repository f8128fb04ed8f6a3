//! The layout of the records: at which byte each part begins, and how many bytes there are beside
//! parts of no fixed length.

/// Of either record: its body, which follows 4 bytes of length and 2 of kind.
pub const BODY: usize = 6;

/// In a key record: the hash's number, one byte.
pub const HASH_NUMBER: usize = BODY;

/// In a key record: the code's number, one byte.
pub const CODE_NUMBER: usize = BODY + 1;

/// In a key record: the height, one byte.
pub const HEIGHT: usize = BODY + 2;

/// In a key record: the spare byte, which is 0.
pub const SPARE: usize = BODY + 3;

/// In a key record: the hash key, 16 bytes.
pub const HASH_KEY: usize = BODY + 4;

/// As few bytes as any record may have: those of a key record up to its hash key.
pub const SHORTEST: usize = HASH_KEY;

/// In a key record: the bitmasks, 32 bytes for each level. The root follows them, 16 bytes.
pub const MASKS: usize = HASH_KEY + 16;

/// How many bytes of a key record are not its masks: those before them, and the root.
pub const BESIDE_MASKS: usize = MASKS + 16;

/// In a release record: the row of strings, which follows a leaf number of 2 bytes.
pub const ROW: usize = BODY + 2;
