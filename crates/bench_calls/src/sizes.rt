//! How many bytes the types of a key take.

ghost use Rattle.std.specs.Prelude.{◌≡◌, ◌∷◌, [], slice_index};

use codes::Winternitz4;
use growth::Origin;
use records::Release;
use sha256::Sha256Hash;
use signer::{Maker, Plan, Retired, Signer};
use verifier::OpenedKey;

/// How many bytes a type takes: 1 a maker, 2 a signer, 3 a retired signer, 4 an opened key, 5 a plan, 6 an origin, 7 a release
/// that was read; 0 for any other number. Measured under hash 1 and code 3, which these types do not store.
#[unsafe(no_mangle)]
pub extern "C" fn type_size(which: u8) -> usize
    ensures { result ≡ slice_index (0 ∷ 692 ∷ 4916 ∷ 4916 ∷ 24 ∷ 1 ∷ 545 ∷ 24 ∷ []) which }
{
    let sizes = [
        0,
        size_of::<Maker<Sha256Hash, Winternitz4>>(),
        size_of::<Signer<Sha256Hash, Winternitz4>>(),
        size_of::<Retired<Sha256Hash, Winternitz4>>(),
        size_of::<OpenedKey<'static>>(),
        size_of::<Plan>(),
        size_of::<Origin>(),
        size_of::<Release<'static>>(),
    ];
    sizes.get(which as usize).copied().unwrap_or(0)
}
