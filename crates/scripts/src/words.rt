//! Words with single spaces between them: what is read of a line, word by word.

ghost use Rattle.std.specs.Prelude.{◌≡◌, ◌≤◌, position, ◌==◌, length};
ghost use Rattle.std.specs.Option.{ForSome, option_map};
ghost use Rattle.scripts.specs.Ascii.{space};
ghost use Rattle.scripts.specs.Sizes.{longest_line};

use crate::digits::number;
use crate::hex;

// Where the first space of a text is.
fn first_space(text: &[u8]) -> Option<usize>
    ensures { result ≡ position (λ c. c == space) text.now }
{
    text.iter().position(|byte| *byte == b' ')
}

/// The words of a line that are left, where any are: none is what follows the last word, and an empty text is an empty word.
#[derive(Clone, Copy)]
pub struct Words<'a> {
    /// The words as they stand in the line, which has `LONGEST` bytes at most.
    pub text: Option<&'a [u8]>,
    pub ghost short: { ForSome text (λ t. length t.now ≤ longest_line) },
}

impl<'a> Words<'a> {
    ghost use Rattle.scripts.specs.Words.{word_of, after_word, rest_of, rest_after, byte_word, string_word};

    /// The first word of a text, and what follows the space after it, where there is one. Rules: `word_of` and `after_word`.
    pub(crate) fn split(text: &'a [u8]) -> (&'a [u8], Words<'a>)
        requires { length text.now ≤ longest_line }
        ensures word { result.0.now ≡ word_of text.now }
        ensures rest { rest_of result.1 ≡ after_word text.now }
    {
        match first_space(text) {
            Some(at) => (
                &text[..at],
                Words {
                    text: Some(&text[at + 1..]),
                },
            ),
            None => (text, Words { text: None }),
        }
    }

    // Takes the first word, where any is left.
    fn next(&mut self) -> Option<&'a [u8]>
        ensures word { option_map (λ x. x.now) result ≡ option_map word_of (rest_of self.old) }
        ensures rest { rest_of self.new ≡ rest_after (rest_of self.old) }
    {
        let (word, rest) = Words::split(self.text?);
        *self = rest;
        Some(word)
    }

    /// Takes the first word, a number of one byte: decimal digits, and at most 255. Rule: `byte_word`.
    pub(crate) fn byte(&mut self) -> Option<u8>
        ensures { option_map (λ n. record { word = n; rest = rest_of self.new }) result
            ≡ byte_word (rest_of self.old) }
    {
        Some(number(self.next()?, u8::MAX as u32)? as u8)
    }

    /// Takes the first word, a string: 16 bytes, as 32 hex digits. Rule: `string_word`.
    pub(crate) fn string(&mut self) -> Option<[u8; 16]>
        ensures { option_map (λ s. record { word = s; rest = rest_of self.new }) result
            ≡ string_word (rest_of self.old) }
    {
        hex::array(self.next()?)
    }
}
