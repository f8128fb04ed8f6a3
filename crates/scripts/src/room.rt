//! How long an output is.

ghost use Rattle.std.specs.Prelude.{◌≤◌};
ghost use Rattle.scripts.specs.Sizes.{most_room};

/// As long as an output may be, in bytes.
pub const MOST_ROOM: usize = 65_536;

/// How long an output is.
#[derive(Clone, Copy)]
pub struct Room {
    /// How many bytes it has: `MOST_ROOM` at most.
    pub bytes: u32,
    /// No more than `MOST_ROOM`.
    pub ghost within: { bytes ≤ most_room },
}
