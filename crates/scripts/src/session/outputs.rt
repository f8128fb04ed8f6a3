//! The outputs that records are written into.

ghost use Rattle.std.specs.Prelude.{◌≡◌};
ghost use Rattle.scripts.specs.Replies.{output};

use crate::{MOST_ROOM, Room};

/// An output of this size: the front of a buffer, which becomes zero. The other bytes of the buffer stay.
pub(crate) fn output_of<'o>(out: &'o mut [u8; MOST_ROOM], room: Room) -> &'o mut [u8]
    ensures { result.now ≡ output room.bytes }
{
    let out = &mut out[..room.bytes as usize];
    out.fill(0);
    out
}
