//! What a signer does unchanged is left to it when it is retired: its key record, and its traces.

ghost use Rattle.std.specs.Prelude.{◌≡◌};
ghost use Rattle.signer.specs.Views.{retired_signer};

use crate::{Retired, Signer};
use codes::Code;
use hashes::TreeHash;
use std::ops::Deref;

impl<H: TreeHash, C: Code> Deref for Retired<H, C> {
    type Target = Signer<H, C>;

    ghost deref_gives = { λ retired signer. signer ≡ retired_signer retired };

    /// The signer that was retired, to be read: its `key` and its `trace`.
    fn deref(&self) -> &Signer<H, C> {
        &self.signer
    }
}
