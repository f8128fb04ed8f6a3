//! The ledger: which stamp each leaf was spent on.

ghost use Rattle.std.specs.Prelude.{◌≡◌, ◌<◌, replicate, Some, None, slice_index_or, slice_set};
ghost use Rattle.rules.specs.States.{ledger_rows};

/// How many rows a ledger has: one for each leaf of the tallest tree, whose height is 8.
pub(crate) const ROWS: usize = 256;

/// A row for each leaf: empty, or the stamp that the leaf was spent on, 16 bytes.
#[derive(Drop)]
pub(crate) struct Ledger {
    rows: [Option<[u8; 16]>; ROWS],
}

impl Ledger {
    /// A ledger with no stamp in it.
    pub(crate) fn empty() -> Ledger
        ensures { result.rows ≡ replicate ledger_rows None }
    {
        Ledger { rows: [None; ROWS] }
    }

    /// Enters a stamp in the row of a leaf; the other rows stay. Nothing else changes a row.
    pub(crate) fn enter(&mut self, leaf: u16, stamp: &[u8; 16])
        requires { leaf < ledger_rows }
        ensures { self.new.rows ≡ slice_set self.old.rows leaf (Some stamp.now) }
    {
        self.rows[leaf as usize] = Some(*stamp);
    }

    /// The row of a leaf: its stamp, or none where it is empty.
    pub(crate) fn row(&self, leaf: u16) -> Option<[u8; 16]>
        requires { leaf < ledger_rows }
        ensures { result ≡ slice_index_or self.now.rows leaf None }
    {
        self.rows[leaf as usize]
    }
}
