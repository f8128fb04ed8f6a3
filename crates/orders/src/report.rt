//! What is reported of a key record and its orders.

ghost use Rattle.std.specs.Prelude.{Some};
ghost use Rattle.std.specs.Fmt.{DisplaysOnOk};
ghost use Rattle.orders.specs.Texts.{order_lines, report_text};
ghost use Rattle.orders.specs.Views.{orders_to_come, reported};

use crate::{Orders, Tour};
use records::Refusal;
use std::fmt;

/// What a key record and the orders that follow it come to.
#[derive(Clone, Copy)]
pub enum Report<'a> {
    /// The key record is refused, and no order is looked at.
    Refused(Refusal),
    /// The key record is opened; the orders are checked as they are handed out.
    Opened(Tour<'a>),
}

// A line for each order.
fn write_orders<W: fmt::Write>(orders: Orders<'_>, f: &mut fmt::Formatter<W>) -> fmt::Result
    ensures { DisplaysOnOk W.write_str_gives f.old result
        (Some (order_lines (orders_to_come orders.entry))) f.new }
{
    for order in orders {
        writeln!(f, "{order}")?;
    }
    Ok(())
}

// A line for the key, and one for each order, counted from 1. Rule: `report_text`.
impl fmt::Display for Report<'_> {
    ghost output = { λ report. Some (report_text (reported report)) };

    fn fmt<W: fmt::Write>(&self, f: &mut fmt::Formatter<W>) -> fmt::Result {
        match self {
            Report::Refused(refusal) => writeln!(f, "key refused {refusal}"),
            Report::Opened(tour) => {
                let summary = tour.summary();
                writeln!(f, "key {summary}")?;
                write_orders(tour.orders(), f)
            }
        }
    }
}
