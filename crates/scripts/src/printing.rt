//! The lines that are printed of answers: bytes as lower-case hex digits, numbers as decimal digits.

ghost use Rattle.std.specs.Prelude.{Some};
ghost use Rattle.std.specs.Fmt.{DisplaysOnOk};
ghost use Rattle.std.specs.List.{flat_map};
ghost use Rattle.scripts.specs.Replies.{held_in, node_of, told};
ghost use Rattle.scripts.specs.Texts.{node_text, nodes_text, line_text};

use crate::{Answer, Node};
use std::fmt;
use strings::Hex;

// LEVEL:POSITION:NODE. Rule: `node_text`.
impl fmt::Display for Node {
    ghost output = { λ node. Some (node_text (node_of node)) };

    fn fmt<W: fmt::Write>(&self, f: &mut fmt::Formatter<W>) -> fmt::Result {
        write!(f, "{}:{}:{}", self.level, self.position, Hex(&self.node))
    }
}

// A node of a list, or nothing.
fn write_level<W: fmt::Write>(level: &Option<Node>, f: &mut fmt::Formatter<W>) -> fmt::Result
    ensures { DisplaysOnOk W.write_str_gives f.old result
        (Some (nodes_text (held_in level.now))) f.new }
{
    match level {
        Some(node) => write!(f, " {node}"),
        None => Ok(()),
    }
}

// The nodes of a list.
fn write_levels<W: fmt::Write>(levels: &[Option<Node>], f: &mut fmt::Formatter<W>) -> fmt::Result
    ensures { DisplaysOnOk W.write_str_gives f.old result
        (Some (nodes_text (flat_map held_in levels.now))) f.new }
{
    for level in levels {
        write_level(level, f)?;
    }
    Ok(())
}

// A line, without its end. Rule: `line_text`.
impl fmt::Display for Answer<'_> {
    ghost output = { λ answer. Some (line_text (told answer)) };

    fn fmt<W: fmt::Write>(&self, f: &mut fmt::Formatter<W>) -> fmt::Result {
        match self {
            Answer::Begun { hash, code, height } => write!(f, "begun {hash} {code} {height}"),
            Answer::Grown(grown) => write!(f, "grown {grown}"),
            Answer::Nodes(levels) => {
                write!(f, "nodes")?;
                write_levels(levels, f)
            }
            Answer::Finished => write!(f, "finished"),
            Answer::Key(record) => write!(f, "key {}", Hex(record)),
            Answer::Signed { leaf, record } => write!(f, "leaf {leaf} record {}", Hex(record)),
            Answer::Next(next) => write!(f, "next {next}"),
            Answer::Retired => write!(f, "retired"),
            Answer::Verdict {
                numbers: (verdict, first, second),
                report,
            } => write!(
                f,
                "verdict {verdict} {first} {second} report {}",
                Hex(report)
            ),
            Answer::Refused(refusal) => write!(f, "refused {refusal}"),
            Answer::UnknownScheme => write!(f, "unknown scheme"),
            Answer::NotNow => write!(f, "not now"),
            Answer::NotACall => write!(f, "not a call"),
        }
    }
}
