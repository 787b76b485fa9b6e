ghost use Rattle.std.specs.Prelude.{◌≡◌, ◌<◌, ◌≤◌, ◌^◌, ◌+◌, ℕ, true, cond, length, All, IfOk};
ghost use Rattle.tcl_words.specs.TopWords as words;
ghost use Rattle.std.specs.List.{slice_range};
ghost use Rattle.std.specs.Option.{option_copied};

use crate::token::{Kind, Token, Word};
use memory_core::Memory;
use std::alloc::Global;

/// How many groups are open after a token.
fn level_after(kind: Kind, groups: usize) -> usize
    requires few { groups < 2 ^ 63 }
    requires closes { words.is_close_kind kind ≡ true → 0 < groups }
    ensures { result + cond (words.is_close_kind kind) 1 0 ≡ groups + cond (words.is_open_kind kind) 1 0 }
{
    match kind {
        Kind::Open => groups + 1,
        Kind::Close => groups - 1,
        Kind::Atom => groups,
    }
}

/// The last token of the word that begins at a token outside all groups.
fn word_last(tokens: &[Token], first: usize) -> usize
    requires within { first < length tokens.now }
    requires balanced { words.IsBalanced tokens.now }
    requires outside { words.level tokens.now first ≡ 0 }
    ensures { result ≡ words.word_last tokens.now first }
{
    let mut groups = 0;
    for last in first..tokens.len() {
        groups = level_after(tokens[last].kind, groups);
        if groups == 0 {
            return last;
        }
    }
    tokens.len()
}

/// The words outside all groups.
pub fn top_words(alloc: Global, tokens: &[Token]) -> Result<Vec<Word>, Memory>
    requires { words.IsBalanced tokens.now }
    ensures words { IfOk result (λ found. found.items ≡ words.top_words tokens.now) }
    ensures within { IfOk result (λ found. All (words.IsWordOf tokens.now) found.items) }
{
    let mut found = Vec::with_capacity(alloc, tokens.len())?;
    let mut first = 0;
    while first < tokens.len() {
        let last = word_last(tokens, first);
        found.push(Word { first, last })?;
        first = last + 1;
    }
    Ok(found)
}

/// The tokens between a group's braces: they can be used as the group's tokens can.
pub fn inside(tokens: &[Token], word: Word) -> &[Token]
    requires word { words.IsWordOf tokens.now word }
    requires group { word.first < word.last }
    ensures part { result.now ≡ slice_range tokens.now (word.first + 1) word.last }
    ensures tokens { (n : ℕ) → words.AreTokensIn n tokens.now → words.AreTokensIn n result.now }
{
    &tokens[word.first + 1..word.last]
}

/// The bytes from one place to another.
fn part(text: &[u8], from: usize, to: usize) -> &[u8]
    requires from { from ≤ to }
    requires to { to ≤ length text.now }
    ensures { result.now ≡ slice_range text.now from to }
{
    &text[from..to]
}

/// The bytes of a token.
fn token_text<'a>(text: &'a [u8], tokens: &[Token], index: usize) -> &'a [u8]
    requires tokens { words.AreTokensIn (length text.now) tokens.now }
    requires index { index < length tokens.now }
    ensures { result.now ≡ slice_range text.now (words.nth tokens.now index).start (words.nth tokens.now index).end }
{
    part(
        text,
        tokens[index].start as usize,
        tokens[index].end as usize,
    )
}

/// The atom of a word: itself, or the one thing in its group. The tokens are some of that text.
pub fn atom_text<'a>(text: &'a [u8], tokens: &[Token], word: Word) -> Option<&'a [u8]>
    requires tokens { words.AreTokensIn (length text.now) tokens.now }
    requires word { words.IsWordOf tokens.now word }
    ensures { option_copied result ≡ words.atom_of text.now tokens.now word }
{
    if word.first == word.last {
        Some(token_text(text, tokens, word.first))
    } else if word.last == word.first + 2 {
        Some(token_text(text, tokens, word.first + 1))
    } else {
        None
    }
}

/// The bytes between a group's braces, of a word that is no atom. The tokens are some of that text.
pub fn raw_text<'a>(text: &'a [u8], tokens: &[Token], word: Word) -> Option<&'a [u8]>
    requires tokens { words.AreTokensIn (length text.now) tokens.now }
    requires word { words.IsWordOf tokens.now word }
    ensures { option_copied result ≡ words.raw_of text.now tokens.now word }
{
    if word.first == word.last {
        None
    } else {
        Some(part(
            text,
            tokens[word.first].start as usize + 1,
            tokens[word.last].start as usize,
        ))
    }
}
