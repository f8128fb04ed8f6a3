//! Planning a key.

ghost use Rattle.std.specs.Prelude.{◌≡◌};
ghost use Rattle.records.specs.Causes.{Refuses};
ghost use Rattle.records.specs.Rules.{seen};
ghost use Rattle.rules.specs.Conditions.{plan_causes};
ghost use Rattle.rules.specs.Rules.{plan_rule};
ghost use Rattle.signer.specs.Views.{height_of_plan};

use crate::Plan;
use records::{Refusal, TALLEST};

impl Plan {
    /// The plan of a key of this height, which has 2^height leaves. Refuses with 1, `Plan`, a height
    /// outside 1 to 8.
    pub fn new(height: u8) -> Result<Plan, Refusal>
        ensures answer { seen height_of_plan result ≡ plan_rule height }
        ensures refuses { Refuses (plan_causes height) result }
    {
        if !(1..=TALLEST).contains(&height) {
            return Err(Refusal::Plan);
        }
        Ok(Plan { height })
    }

    /// The height, from 1 to 8; the key has 2^height leaves.
    pub fn height(&self) -> u8
        ensures { result ≡ height_of_plan self.now }
    {
        self.height
    }
}
