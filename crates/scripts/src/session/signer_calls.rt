//! The calls of a key in service.

ghost use Rattle.std.specs.Prelude.{◌≡◌};
ghost use Rattle.tree.specs.Meaning.{hash_of, code_of};
ghost use Rattle.rules.specs.Rules.{sign_state, skip_answer, skip_state};
ghost use Rattle.histories.specs.Histories.{serving};
ghost use Rattle.signer.specs.Views.{signing_of};
ghost use Rattle.scripts.specs.Calls.{said};
ghost use Rattle.scripts.specs.Replies.{told, next, answered, output, sign_reply, state_of, reply, leaves};

use crate::session::outputs::output_of;
use crate::session::unchanged::{key, trace};
use crate::{Answer, Call, MOST_ROOM, Room, Session};
use codes::Code;
use hashes::TreeHash;
use signer::Signer;
use tree::rows::WORK;

// Spends the next leaf on a stamp, and answers with the leaf and the release record. The output is zero before the call.
fn sign<'o, H: TreeHash, C: Code>(
    signer: &mut Signer<H, C>,
    stamp: &[u8; 16],
    room: Room,
    out: &'o mut [u8; MOST_ROOM],
) -> Answer<'o>
    ensures answer { told result ≡ sign_reply (hash_of H.TreeHash) (code_of C.Code)
        (signing_of signer.old) stamp.now room.bytes }
    ensures state { signing_of signer.new ≡ sign_state (code_of C.Code) (signing_of signer.old)
        stamp.now (output room.bytes) }
{
    let mut work = [0; WORK];
    let out = output_of(out, room);
    match signer.sign(stamp, out, &mut work) {
        Ok((size, leaf)) => Answer::Signed {
            leaf,
            record: &out[..size],
        },
        Err(refusal) => Answer::Refused(refusal),
    }
}

// Makes `leaf` the next leaf, and answers with it.
fn skip<H: TreeHash, C: Code>(signer: &mut Signer<H, C>, leaf: u16) -> Answer<'static>
    ensures answer { told result ≡ answered next (skip_answer (signing_of signer.old) leaf) }
    ensures state { signing_of signer.new ≡ skip_state (signing_of signer.old) leaf }
{
    match signer.skip(leaf) {
        Ok(next) => Answer::Next(next),
        Err(refusal) => Answer::Refused(refusal),
    }
}

/// Answers a call of a key in service: key, sign, skip, retire or trace. All others are answered `Answer::NotNow`.
pub(crate) fn in_service<'o, H: TreeHash, C: Code>(
    mut signer: Signer<H, C>,
    call: &Call<'_>,
    out: &'o mut [u8; MOST_ROOM],
) -> (Session<H, C>, Answer<'o>)
    ensures answer { told result.1 ≡ reply (hash_of H.TreeHash) (code_of C.Code)
        (serving (signing_of signer)) (said call.now) }
    ensures state { state_of result.0 ≡ leaves (hash_of H.TreeHash) (code_of C.Code)
        (serving (signing_of signer)) (said call.now) }
{
    let answer = match call {
        Call::Key { room } => key(&signer, *room, out),
        Call::Sign { stamp, room } => sign(&mut signer, stamp, *room, out),
        Call::Skip { leaf } => skip(&mut signer, *leaf),
        Call::Retire => return (Session::Retired(signer.retire()), Answer::Retired),
        Call::Trace { stamp, record } => trace(&signer, stamp, record),
        _ => Answer::NotNow,
    };
    (Session::Serving(signer), answer)
}
