//! Reads the attributes of combinations.
ghost use Rattle.std.specs.Prelude.{◌≡◌, ◌<◌, map, length, true, is_some, IfOk, IfSome};
ghost use Rattle.std.specs.Option.{option_copied, option_map};
ghost use Rattle.tcl_words.specs.TopWords.{AreTokensIn, IsWordOf};
ghost use Rattle.region_attr.specs.Colours as colours;
ghost use Rattle.region_attr.specs.Keys.{key_of};
ghost use Rattle.region_attr.specs.Ranges.{HasRanges};
ghost use Rattle.put_form.specs.Combs as combs;
ghost use Rattle.put_form.specs.Steps.{HaveWords};
ghost use Rattle.put_form.specs.CombSteps as steps;

use crate::comb_keys::is_attribute;
use crate::fault::PutFault;
use crate::pairs::KeyValue;
use memory_core::Memory;
use region_attr::{Attr, Rgb};
use std::alloc::Global;
use tcl_words::{Token, Word, atom_text, is_word, read_number};
use word_values::group_atoms;

/// A part of a colour: a number from 0 to 255.
fn part(atom: &[u8]) -> Option<u8>
    ensures { result ≡ colours.part atom.now }
{
    let number = read_number(atom)?;
    if 0 <= number && number <= 255 {
        Some(number as u8)
    } else {
        None
    }
}

fn of_parts(red: &[u8], green: &[u8], blue: &[u8]) -> Option<Rgb>
    ensures { result ≡ colours.colour (colours.part red.now) (colours.part green.now) (colours.part blue.now) }
{
    Some(Rgb {
        r: part(red)?,
        g: part(green)?,
        b: part(blue)?,
    })
}

/// The colour of three words.
fn coloured(words: &[&[u8]]) -> Option<Rgb>
    ensures { result ≡ colours.colour_of_parts (map (λ a. a.now) words.now) }
{
    match words {
        [red, green, blue] => of_parts(red, green, blue),
        _ => None,
    }
}

/// The attributes with the one of a key set to an atom.
fn atom_set(key: &[u8], atom: &[u8], attr: Attr) -> Option<Attr>
    ensures value { result ≡ steps.atom_set (key_of key.now) atom.now attr }
    ensures ranges { IfSome result (λ changed. HasRanges attr → HasRanges changed) }
{
    let mut changed = attr;
    match changed.set(key, atom) {
        Ok(()) => Some(changed),
        Err(_) => None,
    }
}

fn is_colour_key(key: &[u8]) -> bool
    ensures { result ≡ steps.is_colour (key_of key.now) }
{
    is_word(key, b"rgb")
}

/// The attributes with the one of a key set to the words of a group.
fn words_set(key: &[u8], words: &[&[u8]], attr: Attr) -> Option<Attr>
    ensures value { result ≡ steps.group_set (key_of key.now) (Some (map (λ a. a.now) words.now)) attr }
    ensures ranges { IfSome result (λ changed. HasRanges attr → HasRanges changed) }
{
    if is_colour_key(key) {
        let rgb = coloured(words)?;
        Some(Attr {
            rgb: Some(rgb),
            ..attr
        })
    } else {
        None
    }
}

/// The attributes with the one of a key set to the word of a value.
fn word_set(
    alloc: Global,
    text: &[u8],
    tokens: &[Token],
    key: &[u8],
    value: Word,
    attr: Attr,
) -> Result<Option<Attr>, Memory>
    requires tokens { AreTokensIn (length text.now) tokens.now }
    requires word { IsWordOf tokens.now value }
    ensures value { IfOk result (λ found. found ≡ steps.word_set text.now tokens.now (key_of key.now) value attr) }
    ensures ranges { IfOk result (λ found. IfSome found (λ changed. HasRanges attr → HasRanges changed)) }
{
    match atom_text(text, tokens, value) {
        Some(atom) => Ok(atom_set(key, atom, attr)),
        None => {
            match group_atoms(alloc, text, tokens, value)? {
                Some(words) => Ok(words_set(key, &words, attr)),
                None => Ok(None),
            }
        }
    }
}

/// The attributes with what a pair sets. `fine` says whether the numbers of the tree are.
fn pair_set(
    alloc: Global,
    text: &[u8],
    tokens: &[Token],
    fine: bool,
    pair: &KeyValue,
    attr: Attr,
) -> Result<Option<Attr>, Memory>
    requires tokens { AreTokensIn (length text.now) tokens.now }
    requires word { IsWordOf tokens.now pair.now.value }
    ensures value { IfOk result (λ found. found ≡ steps.pair_set text.now tokens.now fine pair.now.key pair.now.value attr) }
    ensures ranges { IfOk result (λ found. IfSome found (λ changed. HasRanges attr → HasRanges changed)) }
{
    match pair.key() {
        Some(key) => {
            if is_attribute(key) {
                word_set(alloc, text, tokens, key, pair.value(), attr)
            } else if fine {
                Ok(Some(attr))
            } else {
                Ok(None)
            }
        }
        None => Ok(Some(attr)),
    }
}

/// The attributes that are given, or the first pair whose value is none of its attribute. `fine` says whether the
/// numbers of the tree are.
pub(crate) fn read_attrs(
    alloc: Global,
    text: &[u8],
    tokens: &[Token],
    fine: bool,
    pairs: &[KeyValue],
) -> Result<Attr, PutFault>
    requires tokens { AreTokensIn (length text.now) tokens.now }
    requires words { HaveWords tokens.now pairs.now }
    requires tree { steps.AreFine text.now tokens.now fine pairs.now }
    ensures { steps.AreAttrs result (combs.bad_pair text.now tokens.now pairs.now) (combs.attr_of text.now tokens.now pairs.now) }
{
    let mut attr = Attr::of_group();
    for pair in pairs {
        match pair_set(alloc, text, tokens, fine, pair, attr)? {
            Some(changed) => attr = changed,
            None => return Err(PutFault::Number(pair.place())),
        }
    }
    Ok(attr)
}
