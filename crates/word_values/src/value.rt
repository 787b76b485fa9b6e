//! Values that are given as the words of a text.
ghost use Rattle.std.specs.Prelude.{◌≡◌, ◌≤◌, length};
ghost use Rattle.std.specs.List.{slice_range};
ghost use Rattle.tcl_words.specs.TopWords.{AreTokensIn, IsWordOf};
ghost use Rattle.word_values.specs.Atoms as atoms;

use tcl_words::{Token, Word, raw_text};

/// The bytes from one place to another.
fn part(text: &[u8], from: usize, to: usize) -> &[u8]
    requires from { from ≤ to }
    requires to { to ≤ length text.now }
    ensures { result.now ≡ slice_range text.now from to }
{
    &text[from..to]
}

/// The bytes from the start of a word to the end of the last word.
fn text_from<'a>(text: &'a [u8], tokens: &[Token], word: Word) -> &'a [u8]
    requires tokens { AreTokensIn (length text.now) tokens.now }
    requires word { IsWordOf tokens.now word }
    ensures { result.now ≡ atoms.text_from text.now tokens.now word }
{
    let last = tokens.len() - 1;
    part(
        text,
        tokens[word.first].start as usize,
        tokens[last].end as usize,
    )
}

/// The value from a word on: the raw text of a single group, or the bytes to the end of the last word.
pub fn value_text<'a>(text: &'a [u8], tokens: &[Token], word: Word, rest: &[Word]) -> &'a [u8]
    requires tokens { AreTokensIn (length text.now) tokens.now }
    requires word { IsWordOf tokens.now word }
    ensures { result.now ≡ atoms.value_of text.now tokens.now word rest.now }
{
    if rest.is_empty() {
        if let Some(raw) = raw_text(text, tokens, word) {
            return raw;
        }
    }
    text_from(text, tokens, word)
}
