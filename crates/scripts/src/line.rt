//! A line of a script.

ghost use Rattle.std.specs.Prelude.{◌≡◌};
ghost use Rattle.scripts.specs.Lines.{line_of, line_rule, read_begin};
ghost use Rattle.scripts.specs.Words.{rest_of};

use crate::words::Words;
use crate::{Begin, Call, hex};

/// As long as a line may be, in bytes.
pub const LONGEST: usize = 65_536;

/// As long as the record of a line can be, in bytes: each takes two digits of the line.
pub const LONGEST_RECORD: usize = LONGEST / 2;

/// What a line asks for.
#[derive(Clone, Copy)]
pub enum Line<'a> {
    /// Nothing to answer: the line is empty or begins with `#`.
    Silent,
    /// Not a call: the line is longer than `LONGEST`, or its words are none of a call's.
    NotACall,
    /// A key is to be begun.
    Begin(Begin),
    /// A call of a key that is begun.
    Call(Call<'a>),
}

// begin HASH CODE HEIGHT SEED HASHKEY MASKS
fn read_begin(mut words: Words<'_>) -> Option<Begin>
    ensures { result ≡ read_begin (rest_of words.entry) }
{
    let hash = words.byte()?;
    let code = words.byte()?;
    let height = words.byte()?;
    let seed = words.string()?;
    let hash_key = words.string()?;
    let masks = hex::array(words.text?)?;
    Some(Begin {
        hash,
        code,
        height,
        seed,
        hash_key,
        masks,
    })
}

impl<'a> Line<'a> {
    /// Reads a line, without its end. The record of a trace is written into the front of `store`, and the call borrows it
    /// there; all other bytes of `store` are used up. Rule: `line_rule`.
    pub fn read(text: &[u8], store: &'a mut [u8; LONGEST_RECORD]) -> Line<'a>
        ensures { line_of result ≡ line_rule text.now }
    {
        if let [] | [b'#', ..] = text {
            return Line::Silent;
        }
        if text.len() > LONGEST {
            return Line::NotACall;
        }
        let (name, words) = Words::split(text);
        let Ok(name) = str::from_utf8(name) else {
            return Line::NotACall;
        };
        match name {
            "begin" => match read_begin(words) {
                Some(begin) => Line::Begin(begin),
                None => Line::NotACall,
            },
            _ => match Call::read(name, words, store) {
                Some(call) => Line::Call(call),
                None => Line::NotACall,
            },
        }
    }
}
