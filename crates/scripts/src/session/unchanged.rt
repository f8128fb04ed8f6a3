//! What a key answers in service and out of it.

ghost use Rattle.std.specs.Prelude.{◌≡◌};
ghost use Rattle.tree.specs.Meaning.{hash_of, code_of};
ghost use Rattle.signer.specs.Views.{signing_of};
ghost use Rattle.scripts.specs.Replies.{told, key_reply, trace_reply};

use crate::session::outputs::output_of;
use crate::{Answer, MOST_ROOM, Room};
use codes::Code;
use compare::REPORT;
use hashes::TreeHash;
use signer::Signer;
use tree::rows::WORK;

/// Answers with the key record; refuses with 4, `Output`, a room that is shorter. Rule: `key_reply`.
pub(crate) fn key<'o, H: TreeHash, C: Code>(
    signer: &Signer<H, C>,
    room: Room,
    out: &'o mut [u8; MOST_ROOM],
) -> Answer<'o>
    ensures { told result ≡ key_reply (hash_of H.TreeHash) (code_of C.Code)
        (signing_of signer.now) room.bytes }
{
    let out = output_of(out, room);
    match signer.key(out) {
        Ok(size) => Answer::Key(&out[..size]),
        Err(refusal) => Answer::Refused(refusal),
    }
}

/// Compares a release record for a stamp with the ledger, and answers with a verdict and its report; refuses, in this order,
/// with 6, `Length`, 7, `Kind`, 10, `Layout`, 11, `Leaf`, and 12, `Root`, as the signer's trace. Rule: `trace_reply`.
pub(crate) fn trace<H: TreeHash, C: Code>(
    signer: &Signer<H, C>,
    stamp: &[u8; 16],
    bytes: &[u8],
) -> Answer<'static>
    ensures { told result ≡ trace_reply (hash_of H.TreeHash) (code_of C.Code)
        (signing_of signer.now) stamp.now bytes.now }
{
    let mut work = [0; WORK];
    let mut report = [0; REPORT];
    match signer.trace(stamp, bytes, &mut report, &mut work) {
        Ok(numbers) => Answer::Verdict { numbers, report },
        Err(refusal) => Answer::Refused(refusal),
    }
}
