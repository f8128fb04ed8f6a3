//! signer_cli: reads calls of a signer from standard input, a line for each, and prints a line of answer for each. All its
//! memory is taken before the first line is read.
#![tactic(auto)]

ghost use Rattle.std.specs.Prelude.{⊤};

use codes::Code;
use hashes::TreeHash;
use schemes::Task;
use scripts::{Answer, Begin, Call, LONGEST, LONGEST_RECORD, Line, MOST_ROOM, Session, Start};
use signer::Plan;
use std::io::{BufRead, BufReader, Read, Stdin};

// What a line asks for that is still to be done.
#[derive(Clone, Copy)]
enum Heard<'a> {
    // Nothing is left to do.
    Done,
    // A begin that begins a key.
    Begin(Begin, Start),
    // A call, of a key that is begun.
    Call(Call<'a>),
    // There is no line more.
    End,
}

// Standard input, and where its lines and their records are kept.
#[derive(Drop)]
struct Console<'r> {
    rt: &'r HostRuntime,
    input: BufReader<Stdin>,
    // The last line that was read.
    line: Vec<u8>,
    // The record of its trace, in front.
    record: [u8; LONGEST_RECORD],
}

impl<'r> Console<'r> {
    // Takes all the memory that the program needs.
    fn new(rt: &'r HostRuntime) -> anyhow::Result<Console<'r>> {
        Ok(Console {
            rt,
            input: BufReader::new(rt.alloc(), rt.stdin())?,
            // A line with its end, or so much of a longer one that it shows.
            line: Vec::with_capacity(rt.alloc(), LONGEST + 1)?,
            record: [0; LONGEST_RECORD],
        })
    }

    // Reads a line, without its end; of one that is too long, only so much that it shows. Answers whether there was one.
    fn read_line(&mut self) -> anyhow::Result<bool> {
        self.line.clear();
        if self
            .input
            .by_ref()
            .take(LONGEST as u64 + 1)
            .read_until(b'\n', &mut self.line)?
            == 0
        {
            return Ok(false);
        }
        if self.line.pop_if(|byte| *byte == b'\n').is_none() {
            self.input.skip_until(b'\n')?;
        }
        Ok(true)
    }

    // Reads a line. Answers one that is no call, and a begin that begins no key.
    fn hear(&mut self) -> anyhow::Result<Heard<'_>> {
        if !self.read_line()? {
            return Ok(Heard::End);
        }
        match Line::read(self.line.as_slice(), &mut self.record) {
            Line::Silent => Ok(Heard::Done),
            Line::NotACall => {
                println!(self.rt; "{}", Answer::NotACall)?;
                Ok(Heard::Done)
            }
            Line::Begin(begin) => match begin.start() {
                Ok(start) => Ok(Heard::Begin(begin, start)),
                Err(not_begun) => {
                    println!(self.rt; "{}", Answer::from(not_begun))?;
                    Ok(Heard::Done)
                }
            },
            Line::Call(call) => Ok(Heard::Call(call)),
        }
    }

    // Reads lines up to the first begin that begins a key. Before it no call is answered.
    fn first_begin(&mut self) -> anyhow::Result<Option<(Begin, Start)>> {
        let rt = self.rt;
        for _ in 0..u64::MAX {
            match self.hear()? {
                Heard::Done => {}
                Heard::Begin(begin, start) => return Ok(Some((begin, start))),
                Heard::Call(_) => println!(rt; "{}", Answer::NotNow)?,
                Heard::End => return Ok(None),
            }
        }
        Ok(None)
    }
}

// Serves a key up to the next begin that begins a key, which it answers, or to the end.
#[derive(Drop)]
struct Serve<'a, 'r> {
    console: &'a mut Console<'r>,
    // Where key and sign write their records.
    out: &'a mut [u8; MOST_ROOM],
    begin: &'a Begin,
    plan: Plan,
}

impl Task for Serve<'_, '_> {
    type Output = anyhow::Result<Option<(Begin, Start)>>;

    // What is read and printed is not said.
    ghost gives = { λ _ _ _ _ _. ⊤ };

    fn run<H: TreeHash, C: Code>(&mut self) -> anyhow::Result<Option<(Begin, Start)>> {
        let rt = self.console.rt;
        let mut session = Session::<H, C>::begin(self.plan, self.begin);
        let begun = Answer::Begun {
            hash: self.begin.hash,
            code: self.begin.code,
            height: self.begin.height,
        };
        println!(rt; "{begun}")?;
        for _ in 0..u64::MAX {
            match self.console.hear()? {
                Heard::Done => {}
                Heard::Begin(begin, start) => return Ok(Some((begin, start))),
                Heard::Call(call) => {
                    let (after, answer) = session.answer(&call, self.out);
                    session = after;
                    println!(rt; "{answer}")?;
                }
                Heard::End => return Ok(None),
            }
        }
        Ok(None)
    }
}

fn main(rt: HostRuntime) -> anyhow::Result<()> {
    let mut console = Console::new(&rt)?;
    let mut out = [0; MOST_ROOM];
    let mut next = console.first_begin()?;
    for _ in 0..u64::MAX {
        let Some((begin, start)) = next else {
            return Ok(());
        };
        next = start.scheme.run(&mut Serve {
            console: &mut console,
            out: &mut out,
            begin: &begin,
            plan: start.plan,
        })?;
    }
    Ok(())
}
