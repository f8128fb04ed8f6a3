//! The kinds of record.

ghost use Rattle.std.specs.Prelude.{◌≡◌};
ghost use Rattle.records.specs.Kinds.{kind_number};

/// The kinds of record; each has one number.
#[derive(Clone, Copy, PartialEq, Eq, Debug)]
pub enum RecordKind {
    /// What a verifier opens: a key's numbers, height, hash key, masks and root.
    Key = 1,
    /// What a signer issues for a stamp: a leaf number and a row of strings.
    Release = 2,
}

impl RecordKind {
    /// The number by which a record names its kind, in bytes 4 and 5 (`kind_number` in specs/).
    pub fn number(self) -> u16
        ensures { result ≡ kind_number self }
    {
        self as u16
    }
}
