//! As much of a source as is read.

ghost use Rattle.std.specs.Prelude.{◌≡◌, ◌+◌, ◌<◌, ◌≤◌, length, take, drop, IfOk, IfErr, Ok, Err, ℕ, List};
ghost use Rattle.std.specs.Io.{ReadsAtMost};
ghost use Rattle.orders.specs.Reading.{Tried, Stopped, ReadUpTo};

use crate::Source;
use std::io::{self, ErrorKind};

/// As much of an input as is read, in bytes.
pub const LIMIT: usize = 65_536;

// One read, tried again where it was interrupted; after 2^64 - 1 tries it is given up, with `TimedOut`. Rule: `Tried`.
fn read_some<S: Source>(input: &mut S, room: &mut [u8]) -> io::Result<usize>
    ensures within { ReadsAtMost result room.new }
    ensures tried { Tried S.gives input.old result room.new input.new }
{
    'tries: for _ in 0..u64::MAX {
        match input.read_once(room) {
            Ok(read) => return Ok(read),
            Err(error) => {
                if error.kind() != ErrorKind::Interrupted {
                    return Err(error);
                }
            }
        }
    }
    Err(io::Error::from(ErrorKind::TimedOut))
}

// One read into the room after the first `filled` bytes, which stay.
fn read_after<S: Source>(input: &mut S, room: &mut [u8], filled: usize) -> io::Result<usize>
    requires { filled < length room.old }
    ensures front { take filled room.new ≡ take filled room.old }
    ensures within { IfOk result (λ n. filled + n ≤ length room.new) }
    ensures tried { Tried S.gives input.old result (drop filled room.new) input.new }
{
    read_some(input, &mut room[filled..])
}

/// Reads up to the source's end or until the room is full, and answers how many bytes were read: they are the front of the
/// room. An error is that of the last read, or `TimedOut`, before the room was full. Rules: `ReadUpTo` and `Stopped`.
pub fn fill<S: Source>(input: &mut S, room: &mut [u8]) -> io::Result<usize>
    ensures within { IfOk result (λ n. n ≤ length room.new) }
    ensures read { IfOk result (λ n.
        ReadUpTo S.gives (length room.old) input.old (take n room.new) input.new) }
    ensures failed { IfErr result (λ e. (bytes : List ℕ)
        × (length bytes < length room.old)
        × Stopped S.gives input.old bytes (Err e) input.new) }
{
    let mut filled = 0;
    while filled < room.len() {
        let read = read_after(input, room, filled)?;
        if read == 0 {
            return Ok(filled);
        }
        filled += read;
    }
    Ok(filled)
}
