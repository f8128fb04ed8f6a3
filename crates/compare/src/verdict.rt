//! What a comparison finds: a verdict, where, and a report.

ghost use Rattle.std.specs.Prelude.{◌≡◌};
ghost use Rattle.compare.specs.Found.{verdict_numbers, verdict_report};

/// The bytes of a report: four strings of 16 bytes.
pub const REPORT: usize = 64;

/// A place of a tree, and the report of what is found there.
#[derive(Clone, Copy)]
pub struct Find {
    /// The level of a node, or the number of a chain.
    pub first: u16,
    /// The position of that node, or a height of that chain.
    pub second: u16,
    /// The strings found there, zeros after them.
    pub report: [u8; REPORT],
}

/// The verdict on a record. Each verdict has one number, and each but the first says where.
#[derive(Clone, Copy)]
pub enum Verdict {
    /// Nothing is found: the signer issued it. Its number is 0, its report zeros.
    Ours,
    /// Two different inputs of the hash's pair have one value: a node is equal on both sides while
    /// its masked children differ. Its number is 1; the report has the signer's masked left and
    /// right child, then the record's.
    Node(Find),
    /// Two different strings of a chain step to one. Its number is 2; the report has the signer's
    /// string, then the record's.
    Chain(Find),
    /// A string of the signer's that was never revealed: the stamp's digit is below the revealed
    /// height. Its number is 3; the report has that string.
    Unrevealed(Find),
}

impl Verdict {
    /// The verdict's number, and two more: where it is found, level and position or chain and
    /// height; or, where the record is ours, the leaf and 0 (`verdict_numbers` in specs/).
    pub fn numbers(&self, leaf: u16) -> (u8, u16, u16)
        ensures { result ≡ verdict_numbers leaf self.now }
    {
        match self {
            Verdict::Ours => (0, leaf, 0),
            Verdict::Node(find) => (1, find.first, find.second),
            Verdict::Chain(find) => (2, find.first, find.second),
            Verdict::Unrevealed(find) => (3, find.first, find.second),
        }
    }

    /// The report, zeros where the record is ours (`verdict_report` in specs/).
    pub fn report(&self) -> [u8; REPORT]
        ensures { result ≡ verdict_report self.now }
    {
        match self {
            Verdict::Ours => [0; REPORT],
            Verdict::Node(find) | Verdict::Chain(find) | Verdict::Unrevealed(find) => find.report,
        }
    }
}
