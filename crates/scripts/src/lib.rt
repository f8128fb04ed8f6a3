//! Scripts for a signer: lines of text are read as calls, a session answers them, and the answers are lines of text.
#![tactic(auto)]

mod answer;
mod begin;
mod call;
mod digits;
mod hex;
mod line;
mod printing;
mod room;
mod session;
mod words;

pub use answer::{Answer, Node};
pub use begin::{Begin, NotBegun, Start};
pub use call::Call;
pub use line::{LONGEST, LONGEST_RECORD, Line};
pub use room::{MOST_ROOM, Room};
pub use session::Session;
