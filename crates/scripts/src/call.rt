//! The calls of a key that is begun.

ghost use Rattle.std.specs.Prelude.{◌≡◌, ◌≤◌, length};
ghost use Rattle.std.specs.Option.{option_map};
ghost use Rattle.scripts.specs.Calls.{said, alone, room_rule, record_rule};
ghost use Rattle.scripts.specs.Calls.{read_key, read_sign, read_skip, read_trace, read_call};
ghost use Rattle.scripts.specs.Sizes.{longest_line};
ghost use Rattle.scripts.specs.Words.{rest_of};

use crate::digits::number;
use crate::words::Words;
use crate::{LONGEST_RECORD, MOST_ROOM, Room, hex};
use records::LONGEST_RELEASE;

// The output's size where none is given: as much as any record takes.
const ROOM: u32 = LONGEST_RELEASE as u32;

/// A call, with what it is given.
#[derive(Clone, Copy)]
pub enum Call<'a> {
    /// Adds the next leaf.
    Grow,
    /// Tells which nodes are held.
    Nodes,
    /// Grows whatever leaves are lacking, and puts the key into service.
    Finish,
    /// Writes the key record into an output of this size.
    Key { room: Room },
    /// Spends the next leaf on the stamp, and writes the release record into an output of this size.
    Sign { stamp: [u8; 16], room: Room },
    /// Makes `leaf` the next leaf.
    Skip { leaf: u16 },
    /// Takes the key out of service.
    Retire,
    /// Compares a release record for the stamp with the ledger.
    Trace { stamp: [u8; 16], record: &'a [u8] },
}

// A call that takes no word more.
fn alone_call<'a>(call: Call<'a>, words: Words<'_>) -> Option<Call<'a>>
    ensures { option_map said result ≡ alone (said call.entry) (rest_of words.entry) }
{
    words.text.is_none().then_some(call)
}

// ROOM, a number of at most `MOST_ROOM`, which may be left out.
fn read_room(words: Words<'_>) -> Option<Room>
    ensures { option_map (λ room. room.bytes) result ≡ room_rule (rest_of words.entry) }
{
    match words.text {
        None => Some(Room { bytes: ROOM }),
        Some(text) => {
            let bytes = number(text, MOST_ROOM as u32)?;
            Some(Room { bytes })
        }
    }
}

// key [ROOM]
fn read_key(words: Words<'_>) -> Option<Call<'static>>
    ensures { option_map said result ≡ read_key (rest_of words.entry) }
{
    let room = read_room(words)?;
    Some(Call::Key { room })
}

// sign STAMP [ROOM]
fn read_sign(mut words: Words<'_>) -> Option<Call<'static>>
    ensures { option_map said result ≡ read_sign (rest_of words.entry) }
{
    let stamp = words.string()?;
    let room = read_room(words)?;
    Some(Call::Sign { stamp, room })
}

// skip N, a number of two bytes
fn read_skip(words: Words<'_>) -> Option<Call<'static>>
    ensures { option_map said result ≡ read_skip (rest_of words.entry) }
{
    let leaf = number(words.text?, u16::MAX as u32)?;
    Some(Call::Skip { leaf: leaf as u16 })
}

// RECORD: hex digits, or - for no bytes. The bytes are written into the front of `store`.
fn read_record<'a>(text: &[u8], store: &'a mut [u8; LONGEST_RECORD]) -> Option<&'a [u8]>
    requires { length text.now ≤ longest_line }
    ensures { option_map (λ bytes. bytes.now) result ≡ record_rule text.now }
{
    match text {
        b"-" => Some(&store[..0]),
        [] => None,
        _ => hex::bytes(text, store),
    }
}

// trace STAMP RECORD
fn read_trace<'a>(mut words: Words<'_>, store: &'a mut [u8; LONGEST_RECORD]) -> Option<Call<'a>>
    ensures { option_map said result ≡ read_trace (rest_of words.entry) }
{
    let stamp = words.string()?;
    let record = read_record(words.text?, store)?;
    Some(Call::Trace { stamp, record })
}

impl<'a> Call<'a> {
    /// The call with this name and these words, where there is one. The record of a trace is written into the front of `store`,
    /// and the call borrows it there. Rule: `read_call`.
    pub(crate) fn read(
        name: &str,
        words: Words<'_>,
        store: &'a mut [u8; LONGEST_RECORD],
    ) -> Option<Call<'a>>
        ensures { option_map said result ≡ read_call name.now (rest_of words.entry) }
    {
        match name {
            "grow" => alone_call(Call::Grow, words),
            "nodes" => alone_call(Call::Nodes, words),
            "finish" => alone_call(Call::Finish, words),
            "key" => read_key(words),
            "sign" => read_sign(words),
            "skip" => read_skip(words),
            "retire" => alone_call(Call::Retire, words),
            "trace" => return read_trace(words, store),
            _ => None,
        }
    }
}
