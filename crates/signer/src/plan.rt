//! The plan of a key.

ghost use Rattle.std.specs.Prelude.{◌≤◌};
ghost use Rattle.tree.specs.Nodes.{tallest};

mod calls;

/// The plan of a key: its tree has 2^height leaves, each of which signs once. Only `Plan::new` makes
/// one.
#[derive(Clone, Copy)]
pub struct Plan {
    height: u8,
    /// The height lies from 1 to 8: from 2 to 256 leaves.
    pub ghost tall: { (1 ≤ height) × (height ≤ tallest) },
}
