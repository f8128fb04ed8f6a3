//! What is compared.

ghost use Rattle.std.specs.Prelude.{◌+◌, ◌*◌, ◌^◌, ◌<◌, ◌≤◌, length};

use codes::Code;
use growth::Tree;

/// What is compared (`Traced` in specs/): a record's leaf number and its row of strings, for a
/// stamp; on the signer's side the tree, and the leaf's row of the ledger.
#[derive(Drop)]
pub struct Subject<'a, H, C: Code> {
    /// The signer's tree.
    pub tree: Tree<'a, H, C>,
    /// The stamp in the leaf's row of the ledger; none where the row is empty.
    pub entered: Option<[u8; 16]>,
    /// The stamp, 16 bytes, that the record is said to be a release for.
    pub stamp: &'a [u8; 16],
    /// The record's leaf number.
    pub leaf: u16,
    /// The record's strings: one for each chain, then the siblings of the authentication path.
    pub row: &'a [u8],
    /// The tree has that leaf.
    pub ghost there: { leaf < 2 ^ tree.origin.now.height },
    /// The row is at least as long as a release record of the tree has it.
    pub ghost shown: { 16 * (C.Code.COUNT + tree.origin.now.height) ≤ length row.now },
}
