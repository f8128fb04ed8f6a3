//! An order that was checked.

use records::Refusal;
use std::fmt;

/// An order of a tour, with what verify answers to it.
#[derive(Clone, Copy)]
pub struct Order {
    /// Its number in the tour, counted from 1.
    pub number: u64,
    /// The leaf number of one that opens, or why it is refused.
    pub outcome: Result<u16, Refusal>,
}

// The text of a line, without its end. Rule: `order_text`.
impl fmt::Display for Order {
    ghost use Rattle.std.specs.Prelude.{Some};
    ghost use Rattle.orders.specs.Texts.{order_text};

    ghost output = { λ order. Some (order_text order) };

    fn fmt<W: fmt::Write>(&self, f: &mut fmt::Formatter<W>) -> fmt::Result {
        let number = self.number;
        match self.outcome {
            Ok(leaf) => write!(f, "order {number} leaf {leaf} open"),
            Err(refusal) => write!(f, "order {number} refused {refusal}"),
        }
    }
}
