//! A key out of service.

ghost use Rattle.tree.specs.Meaning.{hash_by, code_of};
ghost use Rattle.histories.specs.Histories.{retired, HasLived};

use crate::Signer;
use codes::Code;
use hashes::TreeHash;

mod lending;

/// A key out of service. It lends its signer to be read (`Deref`), and neither gives it away nor lends
/// it to be changed: so it has neither `sign`, `skip` nor `retire`. It has `key` and `trace`, which
/// are the signer's: `key` refuses with 4, `Output`, and `trace`, in this order, with 6, `Length`, 7,
/// `Kind`, 10, `Layout`, 11, `Leaf`, and 12, `Root`; the output or the report then stays as it was.
/// After `trace` the work buffer, 4,096 bytes, is all zero, refused or not. It is neither copied nor
/// cloned. Only `Signer::retire` makes one.
#[derive(Drop)]
pub struct Retired<H: TreeHash, C: Code> {
    /// The signer as it was when it was retired.
    pub(crate) signer: Signer<H, C>,
    /// Some begin and some history of calls lead to this retired signer.
    pub ghost lived: { HasLived (hash_by H.ChainHash H.TreeHash) (code_of C.Code)
        (retired (record { origin = signer.origin; root = signer.root; next = signer.next; rows = signer.ledger.rows })) },
}
