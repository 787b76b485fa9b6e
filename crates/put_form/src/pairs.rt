//! Reads the keys and values of a command.
ghost use Rattle.std.specs.Prelude.{All, ◌≡◌, ◌<◌, ◌+◌, ◌^◌, List, IfOk, IfSome, length};
ghost use Rattle.std.specs.Option.{option_copied, option_map};
ghost use Rattle.tcl_words.specs.TopWords.{AreTokensIn, IsWordOf, atom_of};
ghost use Rattle.tcl_words.specs.declared.token.Token.{Token};
ghost use Rattle.put_form.specs.Pairs as listed;
ghost use Rattle.put_form.specs.Steps as steps;

use memory_core::Memory;
use std::alloc::Global;
use std::marker::Model;
use tcl_words::{Token, Word, atom_text};

/// A key, none where its word is no atom, and its value with the number of the value's word.
#[derive(Drop)]
pub(crate) struct KeyValue<'a> {
    key: Option<&'a [u8]>,
    value: Word,
    place: u32,
}

impl<'a> Model for KeyValue<'a> {
    ghost use Rattle.std.specs.Option.{option_copied};
    ghost use Rattle.put_form.specs.Pairs.{Pair, pair};

    ghost Value = { Pair };

    ghost view = { λ s. pair (option_copied s.key) s.value s.place };
}

impl<'a> KeyValue<'a> {
    ghost use Rattle.std.specs.Prelude.{◌≡◌};
    ghost use Rattle.std.specs.Option.{option_copied};

    pub(crate) fn key(&self) -> Option<&'a [u8]>
        ensures { option_copied result ≡ self.now.key }
    {
        self.key
    }

    pub(crate) fn value(&self) -> Word
        ensures { result ≡ self.now.value }
    {
        self.value
    }

    /// The number of the value's word.
    pub(crate) fn place(&self) -> u32
        ensures { result ≡ self.now.place }
    {
        self.place
    }
}

/// The pair of two words, of which the value has this number.
fn pair_of_words<'a>(
    text: &'a [u8],
    tokens: &[Token],
    key: Word,
    value: Word,
    place: u32,
) -> KeyValue<'a>
    requires tokens { AreTokensIn (length text.now) tokens.now }
    requires key { IsWordOf tokens.now key }
    ensures { result ≡ listed.pair (atom_of text.now tokens.now key) value place }
{
    KeyValue {
        key: atom_text(text, tokens, key),
        value,
        place,
    }
}

/// The pairs of words, the first of which has this number, or none where the last key has no value.
pub(crate) fn read_pairs<'a>(
    alloc: Global,
    text: &'a [u8],
    tokens: &[Token],
    words: &[Word],
    place: u32,
) -> Result<Option<Vec<KeyValue<'a>>>, Memory>
    requires tokens { AreTokensIn (length text.now) tokens.now }
    requires words { All (IsWordOf tokens.now) words.now }
    requires few { place + length words.now < 2 ^ 32 }
    ensures pairs { IfOk result (λ found. option_map (λ v. v.items) found ≡ listed.pairs_of text.now tokens.now place words.now) }
    ensures words { IfOk result (λ found. IfSome found (λ v. steps.HaveWords tokens.now v.items)) }
    ensures places { IfOk result (λ found. IfSome found (λ v. steps.HavePlaces v.items)) }
{
    let mut pairs = Vec::with_capacity(alloc, words.len() / 2)?;
    let mut at = 0;
    while at + 1 < words.len() {
        let pair = pair_of_words(
            text,
            tokens,
            words[at],
            words[at + 1],
            place + at as u32 + 1,
        );
        pairs.push(pair)?;
        at += 2;
    }
    if at == words.len() {
        Ok(Some(pairs))
    } else {
        Ok(None)
    }
}

/// Whether this is the key that is looked for.
pub(crate) fn is_key(key: &[u8], other: Option<&[u8]>) -> bool
    ensures { result ≡ listed.is_key key.now (option_copied other.entry) }
{
    match other {
        Some(other) => *key == *other,
        None => false,
    }
}

/// The pair of a key.
pub(crate) fn pair_of<'a, 'b>(key: &[u8], pairs: &'b [KeyValue<'a>]) -> Option<&'b KeyValue<'a>>
    ensures found { option_copied result ≡ listed.pair_of key.now pairs.now }
    ensures word { IfSome result (λ p. (tokens : List Token) → steps.HaveWords tokens pairs.now → IsWordOf tokens p.now.value) }
{
    for pair in pairs {
        if is_key(key, pair.key()) {
            return Some(pair);
        }
    }
    None
}
