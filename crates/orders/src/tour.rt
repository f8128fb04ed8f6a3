//! The orders of a tour, one by one.

ghost use Rattle.std.specs.Prelude.{◌≡◌, ◌+◌, ◌<◌, ◌^◌, ◌∷◌, length, suc};

use crate::splitting::split_record;
use crate::{KeySummary, Order};
use codes::Code;
use hashes::TreeHash;
use records::Refusal;
use schemes::{Scheme, Task};
use verifier::{OpenedKey, verify};

/// An opened key record and the orders that follow it.
#[derive(Clone, Copy)]
pub struct Tour<'a> {
    pub(crate) scheme: Scheme,
    pub(crate) key: OpenedKey<'a>,
    pub(crate) summary: KeySummary,
    pub(crate) orders: &'a [u8],
}

impl<'a> Tour<'a> {
    ghost use Rattle.orders.specs.Texts.{counted_from};
    ghost use Rattle.orders.specs.Views.{summary_of, answers_of, orders_to_come};

    /// What the key record names: the numbers of hash and code, and the height.
    pub fn summary(&self) -> KeySummary
        ensures { result ≡ summary_of self.now }
    {
        self.summary
    }

    /// The orders, from the first on. None is checked yet.
    pub fn orders(&self) -> Orders<'a>
        ensures { orders_to_come result ≡ counted_from 1 (answers_of self.now) }
    {
        Orders {
            scheme: self.scheme,
            key: self.key,
            rest: self.orders,
            given: 0,
        }
    }
}

/// The orders of a tour, handed out one by one, counted from 1: each is checked as it is handed out, by the hash and code that
/// the key record names. Rule: `orders_to_come`.
#[derive(Drop)]
pub struct Orders<'a> {
    scheme: Scheme,
    key: OpenedKey<'a>,
    rest: &'a [u8],
    given: u64,
    ghost countable: { given + length rest.now < 2 ^ 64 },
}

// Verifies one record with any hash and code.
#[derive(Drop)]
struct Verifying<'a> {
    key: OpenedKey<'a>,
    stamp: &'a [u8; 16],
    release: &'a [u8],
}

impl Task for Verifying<'_> {
    ghost use Rattle.std.specs.Prelude.{◌≡◌};
    ghost use Rattle.verifier.specs.Rules.{verify_rule};
    ghost use Rattle.verifier.specs.Views.{key_of};

    type Output = Result<u16, Refusal>;

    ghost gives = { λ before h c result after.
        result ≡ verify_rule h c (key_of before.key) before.stamp.now before.release.now };

    fn run<H: TreeHash, C: Code>(&mut self) -> Result<u16, Refusal> {
        verify::<H, C>(&self.key, self.stamp, self.release)
    }
}

impl<'a> Orders<'a> {
    ghost use Rattle.orders.specs.Outcomes.{answers_to};
    ghost use Rattle.orders.specs.Views.{answer_under};

    // The outcome of the first order in the rest, a stamp of 16 bytes and a release record, and the bytes of the others. A
    // stamp that is cut short is refused with 6, `Length`, and no bytes are left.
    fn first(&self) -> (Result<u16, Refusal>, &'a [u8])
        requires { 0 < length self.now.rest.now }
        ensures first { answers_to (answer_under self.now.scheme self.now.key) self.now.rest.now ≡
            result.0 ∷ answers_to (answer_under self.now.scheme self.now.key) result.1.now }
        ensures fewer { length result.1.now < length self.now.rest.now }
    {
        let Some((stamp, rest)) = self.rest.split_first_chunk::<16>() else {
            return (Err(Refusal::Length), &[]);
        };
        let (release, others) = split_record(rest);
        let key = self.key;
        let outcome = self.scheme.run(&mut Verifying {
            key,
            stamp,
            release,
        });
        (outcome, others)
    }
}

impl Iterator for Orders<'_> {
    ghost use Rattle.std.specs.Iterator.{YieldsFirst, item_count};
    ghost use Rattle.orders.specs.Views.{orders_to_come};

    type Item = Order;

    ghost next_gives = { YieldsFirst orders_to_come };

    ghost remaining = { item_count orders_to_come };

    fn next(&mut self) -> Option<Order> {
        if self.rest.is_empty() {
            return None;
        }
        let (outcome, others) = self.first();
        self.rest = others;
        self.given += 1;
        Some(Order {
            number: self.given,
            outcome,
        })
    }
}
