//! The work buffer.

ghost use Rattle.std.specs.Prelude.{◌≡◌, replicate};
ghost use Rattle.tree.specs.Rows.{work_size};

use tree::rows::WORK;

/// Holds the work buffer of a call while secrets are in it. However the call ends, every byte of the
/// buffer is zero.
pub struct Scratch<'a> {
    /// The buffer that the caller lent.
    pub bytes: &'a mut [u8; WORK],
}

impl Drop for Scratch<'_> {
    /// Writes zeros over the whole buffer.
    fn drop(self)
        ensures { self.exit.0.now ≡ replicate work_size 0 }
    {
        *self.bytes = [0; WORK];
        let Scratch { bytes: _ } = self;
    }
}
