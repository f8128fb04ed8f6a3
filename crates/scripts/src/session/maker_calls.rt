//! The calls of a key that is being grown.

ghost use Rattle.std.specs.Prelude.{◌≡◌};
ghost use Rattle.std.specs.List.{flat_map};
ghost use Rattle.tree.specs.Meaning.{hash_of, code_of};
ghost use Rattle.rules.specs.Rules.{grow_answer, grow_state, held_rule};
ghost use Rattle.histories.specs.Histories.{growing};
ghost use Rattle.signer.specs.Views.{making_of};
ghost use Rattle.scripts.specs.Calls.{said};
ghost use Rattle.scripts.specs.Replies.{told, grown, answered, held_in, held_one, held_nodes, state_of, reply, leaves};

use crate::{Answer, Call, Node, Session};
use codes::Code;
use growth::HELD_LEVELS;
use hashes::TreeHash;
use signer::Maker;
use tree::rows::WORK;

// The node that a maker holds at a level, where it holds one.
fn held_node<H: TreeHash, C: Code>(maker: &Maker<H, C>, level: u8) -> Option<Node>
    ensures { held_in result ≡ held_one level (held_rule (making_of maker.now) level) }
{
    let (position, node) = maker.held(level)?;
    Some(Node {
        level,
        position,
        node,
    })
}

// The nodes that a maker holds, the treehash stack, lowest level number first.
fn held_nodes<H: TreeHash, C: Code>(maker: &Maker<H, C>) -> [Option<Node>; HELD_LEVELS]
    ensures { flat_map held_in result ≡ held_nodes (making_of maker.now) }
{
    let mut nodes = [None; HELD_LEVELS];
    for level in 0..HELD_LEVELS as u8 {
        nodes[level as usize] = held_node(maker, level);
    }
    nodes
}

// Adds the next leaf, and answers how many are in.
fn grow<H: TreeHash, C: Code>(maker: &mut Maker<H, C>) -> Answer<'static>
    ensures answer { told result ≡ answered grown (grow_answer (making_of maker.old)) }
    ensures state { making_of maker.new ≡ grow_state (hash_of H.TreeHash)
        (code_of C.Code) (making_of maker.old) }
{
    let mut work = [0; WORK];
    match maker.grow(&mut work) {
        Ok(grown) => Answer::Grown(grown),
        Err(refusal) => Answer::Refused(refusal),
    }
}

/// Answers a call of a key that is being grown: grow, nodes or finish. All others are answered `Answer::NotNow`.
pub(crate) fn while_growing<H: TreeHash, C: Code>(
    mut maker: Maker<H, C>,
    call: &Call<'_>,
) -> (Session<H, C>, Answer<'static>)
    ensures answer { told result.1 ≡ reply (hash_of H.TreeHash) (code_of C.Code)
        (growing (making_of maker)) (said call.now) }
    ensures state { state_of result.0 ≡ leaves (hash_of H.TreeHash) (code_of C.Code)
        (growing (making_of maker)) (said call.now) }
{
    let answer = match call {
        Call::Grow => grow(&mut maker),
        Call::Nodes => Answer::Nodes(held_nodes(&maker)),
        Call::Finish => {
            let mut work = [0; WORK];
            let signer = maker.finish(&mut work);
            return (Session::Serving(signer), Answer::Finished);
        }
        _ => Answer::NotNow,
    };
    (Session::Growing(maker), answer)
}
