//! An opened key.

ghost use Rattle.std.specs.Prelude.{◌+◌, ◌*◌, ◌≤◌, length};
ghost use Rattle.tree.specs.Nodes.{tallest};
ghost use Rattle.records.specs.Keys.{key_of_height};
ghost use Rattle.records.specs.Records.{beside_masks};
ghost use Rattle.verifier.specs.Conditions.{Opening, OpenedWith};

mod parts;

/// A key record that `open` read, as it lies in the caller's bytes, and its height: nothing is
/// copied. Only `open` makes one.
#[derive(Clone, Copy)]
pub struct OpenedKey<'a> {
    // The whole record.
    pub(crate) bytes: &'a [u8],
    // The height that the record names.
    pub(crate) height: u8,
    /// The height lies from 1 to 8.
    pub ghost tall: { (1 ≤ height) × (height ≤ tallest) },
    /// The record is long enough for its parts and for the masks of each level of the tree.
    pub ghost long: { beside_masks + 32 * height ≤ length bytes.now },
    /// Some verifier opened it.
    pub ghost opened: { ∥ ((by : Opening) × OpenedWith by (key_of_height bytes.now height)) ∥₁ },
}
