//! What a call on a whole key answers.

ghost use Rattle.std.specs.Prelude.{◌≡◌, ℕ};

use crate::failure::Failure;

/// The numbers of an answer; or the number of a refusal; or that no hash has the number that was given, or no code. All else is
/// 0 and false then. A struct of C, its fields in this order. Rule: `reply_of`.
#[repr(C)]
#[derive(Clone, Copy)]
pub struct Reply {
    /// The first number of an answer.
    pub first: usize,
    /// The second, 0 where an answer has one number.
    pub second: u16,
    /// The third, 0 where an answer has two.
    pub third: u16,
    /// The number of a refusal, 1 to 12; 0 where there is none.
    pub refusal: u8,
    /// Whether no hash or no code has the number that was given.
    pub unknown_scheme: bool,
}

// No numbers and no failure.
const NOTHING: Reply = Reply {
    first: 0,
    second: 0,
    third: 0,
    refusal: 0,
    unknown_scheme: false,
};

/// An answer of one to three numbers.
pub trait Numbers {
    /// The numbers, in clauses.
    ghost numbers: { Self → ℕ × ℕ × ℕ };

    /// The numbers, zeros after them.
    fn numbers(self) -> (usize, u16, u16)
        ensures { result ≡ numbers self };
}

impl Numbers for usize {
    ghost numbers = { λ x. (x, 0, 0) };

    fn numbers(self) -> (usize, u16, u16) {
        (self, 0, 0)
    }
}

impl Numbers for (usize, u16) {
    ghost numbers = { λ x. (x.0, x.1, 0) };

    fn numbers(self) -> (usize, u16, u16) {
        (self.0, self.1, 0)
    }
}

impl Numbers for (u8, u16, u16) {
    ghost numbers = { λ x. x };

    fn numbers(self) -> (usize, u16, u16) {
        (self.0 as usize, self.1, self.2)
    }
}

impl<A: Numbers> From<Result<A, Failure>> for Reply {
    ghost use Rattle.std.specs.Prelude.{◌≡◌};
    ghost use Rattle.bench_calls.specs.Lives.{reply_of};

    ghost from_gives = { λ answer reply. reply ≡ reply_of A.numbers answer };

    fn from(answer: Result<A, Failure>) -> Reply {
        match answer {
            Ok(numbers) => {
                let (first, second, third) = numbers.numbers();
                Reply {
                    first,
                    second,
                    third,
                    ..NOTHING
                }
            }
            Err(Failure::Refused(refusal)) => Reply {
                refusal: refusal.number(),
                ..NOTHING
            },
            Err(Failure::Unknown) => Reply {
                unknown_scheme: true,
                ..NOTHING
            },
        }
    }
}
