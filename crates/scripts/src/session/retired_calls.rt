//! The calls of a retired key.

ghost use Rattle.std.specs.Prelude.{◌≡◌};
ghost use Rattle.tree.specs.Meaning.{hash_of, code_of};
ghost use Rattle.histories.specs.Histories.{retired};
ghost use Rattle.signer.specs.Views.{signing_of_retired};
ghost use Rattle.scripts.specs.Calls.{said};
ghost use Rattle.scripts.specs.Replies.{told, state_of, reply, leaves};

use crate::session::unchanged::{key, trace};
use crate::{Answer, Call, MOST_ROOM, Session};
use codes::Code;
use hashes::TreeHash;
use signer::Retired;

/// Answers a call of a retired key: key or trace. All others are answered `Answer::NotNow`.
pub(crate) fn out_of_service<'o, H: TreeHash, C: Code>(
    signer: Retired<H, C>,
    call: &Call<'_>,
    out: &'o mut [u8; MOST_ROOM],
) -> (Session<H, C>, Answer<'o>)
    ensures answer { told result.1 ≡ reply (hash_of H.TreeHash) (code_of C.Code)
        (retired (signing_of_retired signer)) (said call.now) }
    ensures state { state_of result.0 ≡ leaves (hash_of H.TreeHash) (code_of C.Code)
        (retired (signing_of_retired signer)) (said call.now) }
{
    let answer = match call {
        Call::Key { room } => key(&signer, *room, out),
        Call::Trace { stamp, record } => trace(&signer, stamp, record),
        _ => Answer::NotNow,
    };
    (Session::Retired(signer), answer)
}
