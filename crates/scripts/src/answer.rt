//! What calls are answered with.

use crate::NotBegun;
use compare::REPORT;
use growth::HELD_LEVELS;
use records::Refusal;

/// A node that a maker holds.
#[derive(Clone, Copy)]
pub struct Node {
    /// Its level: 0 is the root's, and the height is that of the leaves.
    pub level: u8,
    /// Its position in the level, counted from 0 on the left.
    pub position: u16,
    /// The string at the node.
    pub node: [u8; 16],
}

/// What a call is answered with.
#[derive(Clone, Copy)]
pub enum Answer<'o> {
    /// begin: a key is begun, with these numbers of hash and code and this height.
    Begun {
        hash: u8,
        code: u8,
        height: u8,
    },
    /// grow: how many leaves are in.
    Grown(u16),
    /// nodes: the nodes that are held, the treehash stack, lowest level number first.
    Nodes([Option<Node>; HELD_LEVELS]),
    /// finish: the key is in service.
    Finished,
    /// key: the key record.
    Key(&'o [u8]),
    /// sign: the leaf that was spent, and the release record.
    Signed {
        leaf: u16,
        record: &'o [u8],
    },
    /// skip: the next leaf.
    Next(u16),
    /// retire: the key is out of service.
    Retired,
    /// trace: the verdict and its two numbers, and the report that shows it.
    Verdict {
        numbers: (u8, u16, u16),
        report: [u8; REPORT],
    },
    /// The call, or the plan of a begin, is refused, and changes nothing.
    Refused(Refusal),
    /// No hash or no code has the number that a begin names.
    UnknownScheme,
    /// The key does not have the call now.
    NotNow,
    /// The line is no call.
    NotACall,
}

// What is answered where a begin begins no key. Rule: `not_begun_reply`.
impl From<NotBegun> for Answer<'_> {
    ghost use Rattle.std.specs.Prelude.{◌≡◌};
    ghost use Rattle.scripts.specs.Replies.{told, not_begun_reply};

    ghost from_gives = { λ not_begun answer. told answer ≡ not_begun_reply not_begun };

    fn from(not_begun: NotBegun) -> Self {
        match not_begun {
            NotBegun::Refused(refusal) => Answer::Refused(refusal),
            NotBegun::UnknownScheme => Answer::UnknownScheme,
        }
    }
}
