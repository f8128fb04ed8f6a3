//! A reader that falters.

use std::io::{self, ErrorKind, Read};

/// Gives the bytes of another reader one by one, each after a read that is interrupted, and fails after some bytes.
#[derive(Drop)]
pub(crate) struct Faltering<R> {
    inner: R,
    to_give: u32,
    error: ErrorKind,
    interrupted: bool,
}

impl<R: Read> Faltering<R> {
    /// Fails with `error` once it gave this many bytes of `inner`.
    pub(crate) fn new(inner: R, bytes: u32, error: ErrorKind) -> Faltering<R> {
        Faltering {
            inner,
            to_give: bytes,
            error,
            interrupted: false,
        }
    }
}

impl<R: Read> Read for Faltering<R> {
    fn read(&mut self, room: &mut [u8]) -> io::Result<usize> {
        self.interrupted = !self.interrupted;
        if self.interrupted {
            return Err(io::Error::from(ErrorKind::Interrupted));
        }
        if self.to_give == 0 {
            return Err(io::Error::from(self.error));
        }
        self.to_give -= 1;
        let one = room.len().min(1);
        self.inner.read(&mut room[..one])
    }
}
