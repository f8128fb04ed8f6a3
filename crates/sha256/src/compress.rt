//! The compression function of FIPS 180-4, section 6.2.2: a hash value and a block to the next hash value.

ghost use Rattle.std.specs.Prelude.{◌≡◌};
ghost use Rattle.sha256.specs.Compress as spec;

use crate::constants::{BLOCK, ROUND_WORDS, ROUNDS};
use crate::functions::{big_sigma0, big_sigma1, ch, maj};
use crate::schedule::message_schedule;
use crate::state::State;

// One round, with the round's constant `k` and word `w` of the schedule.
fn round(s: State, k: u32, w: u32) -> State
    ensures { result ≡ spec.round s k w }
{
    let t1 = s
        .h
        .wrapping_add(big_sigma1(s.e))
        .wrapping_add(ch(s.e, s.f, s.g))
        .wrapping_add(k)
        .wrapping_add(w);
    let t2 = big_sigma0(s.a).wrapping_add(maj(s.a, s.b, s.c));
    State {
        a: t1.wrapping_add(t2),
        b: s.a,
        c: s.b,
        d: s.c,
        e: s.d.wrapping_add(t1),
        f: s.e,
        g: s.f,
        h: s.g,
    }
}

// Four rounds, of these constants and words: so few are unrolled, and the eight words of the state
// then move less.
fn four_rounds(start: State, constants: &[u32; 4], words: &[u32; 4]) -> State
    ensures { result ≡ spec.rounds_of start constants.now words.now }
{
    constants
        .iter()
        .zip(words)
        .fold(start, |s, (k, w)| round(s, *k, *w))
}

// All rounds, four by four.
fn rounds(start: State, schedule: &[u32; ROUNDS]) -> State
    ensures { result ≡ spec.rounds 64 0 start schedule.now }
{
    let (constants, _) = ROUND_WORDS.as_chunks::<4>();
    let (words, _) = schedule.as_chunks::<4>();
    constants
        .iter()
        .zip(words)
        .fold(start, |s, (k, w)| four_rounds(s, k, w))
}

// The sum of two states, word by word, modulo 2^32.
fn added(s: State, t: State) -> State
    ensures { result ≡ spec.added s t }
{
    State {
        a: s.a.wrapping_add(t.a),
        b: s.b.wrapping_add(t.b),
        c: s.c.wrapping_add(t.c),
        d: s.d.wrapping_add(t.d),
        e: s.e.wrapping_add(t.e),
        f: s.f.wrapping_add(t.f),
        g: s.g.wrapping_add(t.g),
        h: s.h.wrapping_add(t.h),
    }
}

/// The hash value after a block, from the hash value `s` before it.
pub(crate) fn compress(s: State, block: &[u8; BLOCK]) -> State
    ensures { result ≡ spec.compress s block.now }
{
    let schedule = message_schedule(block);
    added(s, rounds(s, &schedule))
}
