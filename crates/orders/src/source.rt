//! Where bytes are read from.

ghost use Rattle.std.specs.Prelude.{ℕ, List, Option, Result};
ghost use Rattle.std.specs.Io.{ReadsAtMost};
ghost use Rattle.std.specs.Io.KnownBytes.{ReadConsumes};
ghost use Rattle.std.specs.declared.io.Error.{Error};
ghost use Rattle.orders.specs.Reading.{Giving};

use std::io::{self, Read};

/// What bytes are read from: every reader. Its meaning is what its reads give, and the bytes that are left where they are
/// known.
pub trait Source {
    /// The bytes that reads will give from here on, where they are known.
    ghost remaining: { Self → Option (List ℕ) };

    /// What a read does: the source before it, its answer, the room and the source after it.
    ghost gives: { Giving Self };

    /// One read into the front of the room: how many bytes it gave, none at the end; or the error that it answers.
    fn read_once(&mut self, room: &mut [u8]) -> io::Result<usize>
        ensures { gives self.old result room.new self.new };

    /// A read gives no more bytes than there is room for.
    ghost within: { (before after : Self) (r : Result ℕ Error) (room : List ℕ) →
        gives before r room after → ReadsAtMost r room };

    /// Known bytes lose those that a read gave; where it fails, they stay.
    ghost bytes: { (before after : Self) (r : Result ℕ Error) (room : List ℕ) →
        gives before r room after → ReadConsumes (remaining before) (remaining after) r room };
}

// As far as the standard library says what a read does.
impl<R: Read> Source for R {
    ghost remaining = { R.remaining };

    ghost gives = { λ before r room after.
        ReadsAtMost r room × ReadConsumes (R.remaining before) (R.remaining after) r room };

    ghost within = { λ before after r room given. given.0 };

    ghost bytes = { λ before after r room given. given.1 };

    fn read_once(&mut self, room: &mut [u8]) -> io::Result<usize> {
        self.read(room)
    }
}
