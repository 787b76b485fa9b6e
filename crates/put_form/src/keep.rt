//! Reads attributes to be kept.
ghost use Rattle.std.specs.Prelude.{All, ◌≡◌, ◌↔◌, ◌<◌, ◌+◌, ◌^◌, IfOk, IfSome, IsTrue, true, length};
ghost use Rattle.std.specs.List.{list_all};
ghost use Rattle.std.specs.Option.{option_copied, option_map};
ghost use Rattle.tcl_words.specs.TopWords.{AreTokensIn, IsWordOf};
ghost use Rattle.object_set.specs.TextValues.{IsTextValue};
ghost use Rattle.object_set.specs.declared.kept.KeptAttr.{KeptAttr};
ghost use Rattle.put_form.specs.Pairs.{pairs_of};
ghost use Rattle.put_form.specs.Keeps as keeps;
ghost use Rattle.put_form.specs.Keeps.{IsKeptRead};
ghost use Rattle.put_form.specs.Steps.{HaveWords, HavePlaces};
ghost use Rattle.put_form.specs.KeepSteps.{kept_named};

use crate::fault::PutFault;
use crate::pairs::{KeyValue, read_pairs};
use item_list::Items;
use memory_core::Memory;
use name_core::Name;
use object_set::{KeptAttr, KeptAttrs, is_text_value};
use std::alloc::Global;
use tcl_words::{Token, Word, atom_text, raw_text};

/// Whether a text can be a title, or the value of a kept attribute.
fn is_text(text: &[u8]) -> bool
    ensures exact { result ≡ keeps.is_text text.now }
    ensures value { IsTrue result ↔ IsTextValue text.now }
{
    is_text_value(text)
}

/// The raw text of a group, or the atom.
fn word_text<'a>(text: &'a [u8], tokens: &[Token], word: Word) -> &'a [u8]
    requires tokens { AreTokensIn (length text.now) tokens.now }
    requires word { IsWordOf tokens.now word }
    ensures { result.now ≡ keeps.word_text text.now tokens.now word }
{
    match raw_text(text, tokens, word) {
        Some(raw) => raw,
        None => atom_text(text, tokens, word).unwrap_or(b""),
    }
}

fn key_text(key: Option<&[u8]>) -> &[u8]
    ensures { result.now ≡ keeps.key_text (option_copied key.entry) }
{
    match key {
        Some(key) => key,
        None => b"",
    }
}

/// Whether a key is an atom, and its value a text.
fn has_form(text: &[u8], tokens: &[Token], pair: &KeyValue) -> bool
    requires tokens { AreTokensIn (length text.now) tokens.now }
    requires word { IsWordOf tokens.now pair.now.value }
    ensures { result ≡ keeps.has_form text.now tokens.now pair.now }
{
    pair.key().is_some() && is_text(word_text(text, tokens, pair.value()))
}

fn have_form(text: &[u8], tokens: &[Token], pairs: &[KeyValue]) -> bool
    requires tokens { AreTokensIn (length text.now) tokens.now }
    requires words { HaveWords tokens.now pairs.now }
    ensures { result ≡ list_all (keeps.has_form text.now tokens.now) pairs.now }
{
    for pair in pairs {
        if !has_form(text, tokens, pair) {
            return false;
        }
    }
    true
}

/// The attribute of a key and a value.
fn kept_attr(
    alloc: Global,
    text: &[u8],
    tokens: &[Token],
    name: Name,
    value: Word,
) -> Result<KeptAttr, Memory>
    requires tokens { AreTokensIn (length text.now) tokens.now }
    requires word { IsWordOf tokens.now value }
    ensures { IfOk result (λ k. k ≡ record { name = name; value = keeps.word_text text.now tokens.now value }) }
{
    let value = Vec::from_slice(alloc, word_text(text, tokens, value))?;
    Ok(KeptAttr {
        name,
        value: Items::of_vec(value),
    })
}

/// The attributes of pairs that are in their form, or the first key that is no name.
fn read_kept(
    alloc: Global,
    text: &[u8],
    tokens: &[Token],
    pairs: &[KeyValue],
) -> Result<KeptAttrs, PutFault>
    requires tokens { AreTokensIn (length text.now) tokens.now }
    requires words { HaveWords tokens.now pairs.now }
    requires places { HavePlaces pairs.now }
    ensures { IsKeptRead result (kept_named text.now tokens.now pairs.now) }
{
    let mut kept = Items::new(alloc);
    for pair in pairs {
        let Ok(name) = Name::read(key_text(pair.key())) else {
            return Err(PutFault::Name(pair.place() - 1));
        };
        kept.push(kept_attr(alloc, text, tokens, name, pair.value())?)?;
    }
    Ok(kept)
}

/// The attributes of pairs, or the first fault.
fn keep_pairs(
    alloc: Global,
    text: &[u8],
    tokens: &[Token],
    pairs: &[KeyValue],
) -> Result<KeptAttrs, PutFault>
    requires tokens { AreTokensIn (length text.now) tokens.now }
    requires words { HaveWords tokens.now pairs.now }
    requires places { HavePlaces pairs.now }
    ensures { IsKeptRead result (keeps.kept_with text.now tokens.now pairs.now) }
{
    if !pairs.is_empty() && have_form(text, tokens, pairs) {
        read_kept(alloc, text, tokens, pairs)
    } else {
        Err(PutFault::Attr)
    }
}

/// The attributes to be kept that words are, keys and values, of which the first key is the word of this number; or the
/// first fault, `Attr` or `Name`.
pub fn read_keep(
    alloc: Global,
    text: &[u8],
    tokens: &[Token],
    words: &[Word],
    place: u32,
) -> Result<KeptAttrs, PutFault>
    requires tokens { AreTokensIn (length text.now) tokens.now }
    requires words { All (IsWordOf tokens.now) words.now }
    requires few { place + length words.now < 2 ^ 32 }
    ensures read { IsKeptRead result (keeps.kept_of text.now tokens.now (pairs_of text.now tokens.now place words.now)) }
    ensures texts { IfOk result (λ kept. All (λ (k : KeptAttr). IsTextValue k.value) kept) }
{
    match read_pairs(alloc, text, tokens, words, place)? {
        Some(pairs) => keep_pairs(alloc, text, tokens, &pairs),
        None => Err(PutFault::Attr),
    }
}
