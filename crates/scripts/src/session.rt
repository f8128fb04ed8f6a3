//! A key from its begin on, and the calls on it.

ghost use Rattle.std.specs.Prelude.{◌≡◌};
ghost use Rattle.tree.specs.Meaning.{hash_of, code_of};
ghost use Rattle.rules.specs.Rules.{begin_state};
ghost use Rattle.histories.specs.Histories.{growing};
ghost use Rattle.signer.specs.Views.{height_of_plan};
ghost use Rattle.scripts.specs.Calls.{said};
ghost use Rattle.scripts.specs.Replies.{told, state_of, reply, leaves};

use crate::session::maker_calls::while_growing;
use crate::session::retired_calls::out_of_service;
use crate::session::signer_calls::in_service;
use crate::{Answer, Begin, Call, MOST_ROOM};
use codes::Code;
use hashes::TreeHash;
use signer::{Maker, Plan, Retired, Signer};

mod maker_calls;
mod outputs;
mod retired_calls;
mod signer_calls;
mod unchanged;

/// A key, in one of its three states. Each has calls of its own.
#[derive(Drop)]
pub enum Session<H: TreeHash, C: Code> {
    /// Being grown: grow, nodes and finish.
    Growing(Maker<H, C>),
    /// In service: key, sign, skip, retire and trace.
    Serving(Signer<H, C>),
    /// Out of service: key and trace.
    Retired(Retired<H, C>),
}

impl<H: TreeHash, C: Code> Session<H, C> {
    /// Begins a key: no leaf is in. Rule: `begin_state`.
    pub fn begin(plan: Plan, begin: &Begin) -> Session<H, C>
        ensures { state_of result ≡ growing (begin_state
            (record {
              seed = begin.now.seed;
              hash_key = begin.now.hash_key;
              masks = begin.now.masks;
              height = height_of_plan plan;
            })) }
    {
        Session::Growing(Maker::begin(plan, begin.seed, begin.hash_key, begin.masks))
    }

    /// Answers a call, and gives the session as the call leaves it. One that the key does not have now is answered
    /// `Answer::NotNow`, and one that is refused `Answer::Refused`; both change nothing. Refused are, as by the signer: grow
    /// with 2, `Grown`; sign with 3, `Spent`; key and sign with 4, `Output`; skip with 5, `Skip`; trace with 6, `Length`, 7,
    /// `Kind`, 10, `Layout`, 11, `Leaf`, and 12, `Root`. A record is written into the front of `out`, as long as the call's
    /// room says and zero before, and the answer borrows it there; all other bytes of `out` are used up. Rules: `reply` and
    /// `leaves`.
    pub fn answer<'o>(
        self,
        call: &Call<'_>,
        out: &'o mut [u8; MOST_ROOM],
    ) -> (Session<H, C>, Answer<'o>)
        ensures answer { told result.1 ≡ reply (hash_of H.TreeHash) (code_of C.Code)
            (state_of self) (said call.now) }
        ensures state { state_of result.0 ≡ leaves (hash_of H.TreeHash)
            (code_of C.Code) (state_of self) (said call.now) }
    {
        match self {
            Session::Growing(maker) => while_growing(maker, call),
            Session::Serving(signer) => in_service(signer, call, out),
            Session::Retired(signer) => out_of_service(signer, call, out),
        }
    }
}
