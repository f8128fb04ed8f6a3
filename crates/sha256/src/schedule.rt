//! The message schedule of FIPS 180-4, section 6.2.2: a word for each round, from the 64 bytes of a block.

ghost use Rattle.std.specs.Prelude.{◌≡◌, ◌<◌, ◌≤◌, take};
ghost use Rattle.sha256.specs.Compress.{words, next_word, schedule};

use crate::constants::{BLOCK, ROUNDS, WORD};
use crate::functions::{small_sigma0, small_sigma1};

/// The words of a block.
const BLOCK_WORDS: usize = 16;

// The block's 16 words, big-endian, and zeros for the words to come.
fn block_words(block: &[u8; BLOCK]) -> [u32; ROUNDS]
    ensures { take 16 result ≡ words block.now }
{
    let (words, _) = block.as_chunks::<WORD>();
    let mut w = [0; ROUNDS];
    for (t, word) in words.iter().enumerate() {
        w[t] = u32::from_be_bytes(*word);
    }
    w
}

// Word number `t` of the schedule, from those before it.
fn next_word(w: &[u32; ROUNDS], t: usize) -> u32
    requires { (16 ≤ t) × (t < 64) }
    ensures { result ≡ next_word w.now t }
{
    small_sigma1(w[t - 2])
        .wrapping_add(w[t - 7])
        .wrapping_add(small_sigma0(w[t - 15]))
        .wrapping_add(w[t - 16])
}

/// The message schedule of a block: its 16 words, and 48 that follow from those before them.
pub(crate) fn message_schedule(block: &[u8; BLOCK]) -> [u32; ROUNDS]
    ensures { result ≡ schedule block.now }
{
    let mut w = block_words(block);
    for t in BLOCK_WORDS..ROUNDS {
        w[t] = next_word(&w, t);
    }
    w
}
