//! Names, words of texts, and the small types below them.
ghost use Rattle.std.specs.Prelude.{◌≡◌, ◌<◌, ◌^◌, length, Ok, IfOk, OnOk};
ghost use Rattle.tcl_words.specs.Reading.{words_of};
ghost use Rattle.tcl_words.specs.TopWords.{AreTokensIn, IsWordOf};

use crate::objects::shown::{put_counted, put_truth};
use crate::objects::words::{names_of, parted};
use case_text::{CaseFault, Shown, numbers_of};
use fixed_text::FixedText;
use item_list::Items;
use memory_core::Memory;
use name_core::{Name, NameFault};
use object_set::is_text_value;
use std::alloc::Global;
use std::collections::HashSet;
use tcl_words::{
    Kind, Token, Word, WordFault, Words, atom_text, inside, is_group_text, raw_text, read_number,
    read_tenths, read_words, top_words, write_words,
};

/// The most bytes of a text of words in a row.
const MOST_TEXT: usize = 1_000_000;

/// `memory`: the text of want of memory.
pub fn answer_memory(alloc: Global, out: &mut Shown) -> Result<(), CaseFault> {
    let text = format!(in alloc; "{}", Memory)?;
    out.put(text.as_bytes());
    Ok(())
}

/// `name BYTES`: `ok` and the name, or its fault.
pub fn answer_name(given: &[u8], out: &mut Shown) {
    match Name::read(given) {
        Ok(name) => {
            out.put(b"ok ");
            out.put(name.bytes());
        }
        Err(NameFault::Empty) => out.put(b"empty"),
        Err(NameFault::Long) => out.put(b"long"),
        Err(NameFault::BadByte(place)) => put_counted(b"bad byte", place, out),
    }
}

/// Puts in a blank where something stands before it, and `new` or `there`.
fn put_new(is_new: bool, out: &mut Shown) {
    if !out.is_empty() {
        out.put_byte(b' ');
    }
    out.put(if is_new { b"new" } else { b"there" });
}

/// `name-keys NAMES`: for each name whether it was new to a set, or there.
pub fn answer_name_keys(alloc: Global, given: &[u8], out: &mut Shown) -> Result<(), CaseFault> {
    let mut seen: HashSet<Name> = HashSet::new(alloc);
    for name in names_of(alloc, given)? {
        let is_new = seen.insert(name)?;
        put_new(is_new, out);
    }
    Ok(())
}

/// The list of numbers, put in one by one.
fn items_of(alloc: Global, text: &[u8]) -> Result<Items<i128>, CaseFault> {
    let mut list = Items::new(alloc);
    for number in numbers_of(alloc, text)? {
        list.push(number)?;
    }
    Ok(list)
}

/// `items NUMBERS`: the numbers of a list, lent and then given back.
pub fn answer_items(alloc: Global, given: &[u8], out: &mut Shown) -> Result<(), CaseFault> {
    let list = items_of(alloc, given)?;
    for number in list.items() {
        out.put_number(*number);
        out.put_byte(b' ');
    }
    out.put_byte(b'|');
    for number in list.into_vec() {
        out.put_byte(b' ');
        out.put_number(number);
    }
    Ok(())
}

/// `items-equal NUMBERS, NUMBERS`: whether two lists are equal.
pub fn answer_items_equal(alloc: Global, given: &[u8], out: &mut Shown) -> Result<(), CaseFault> {
    let (one, other) = parted(given, b',')?;
    let one = items_of(alloc, one)?;
    let other = Items::of_vec(numbers_of(alloc, other)?);
    put_truth(one == other, out);
    Ok(())
}

/// `items-keys NUMBERS, NUMBERS, ..`: for each list whether it was new to a set, or there.
pub fn answer_items_keys(alloc: Global, given: &[u8], out: &mut Shown) -> Result<(), CaseFault> {
    let mut seen: HashSet<Items<i128>> = HashSet::new(alloc);
    for text in given.split(|byte| *byte == b',') {
        let is_new = seen.insert(items_of(alloc, text)?)?;
        put_new(is_new, out);
    }
    Ok(())
}

/// `fixed-text WORD NUMBER`: a short text, cleared, and then of a word and a number.
pub fn answer_fixed_text(alloc: Global, given: &[u8], out: &mut Shown) -> Result<(), CaseFault> {
    let (word, numbers) = parted(given, b' ')?;
    let numbers = numbers_of(alloc, numbers)?;
    let [number] = *numbers.as_slice() else {
        return Err(CaseFault::Number);
    };
    if word.len() > 20 {
        return Err(CaseFault::Line);
    }
    let mut text: FixedText<64> = FixedText::new();
    text.push(b"order");
    text.clear();
    text.push(word);
    text.push_number(number);
    out.put(text.bytes());
    Ok(())
}

/// Puts in why a text has no words.
fn put_fault(fault: WordFault, out: &mut Shown) -> Result<(), CaseFault> {
    match fault {
        WordFault::BadByte(place) => put_counted(b"bad byte", place, out),
        WordFault::Extra(place) => put_counted(b"extra", place, out),
        WordFault::TooDeep(place) => put_counted(b"too deep", place, out),
        WordFault::Unclosed => out.put(b"unclosed"),
        WordFault::Memory => return Err(CaseFault::Memory),
    }
    Ok(())
}

/// Refuses a text that has too many bytes for a row.
fn check_short(text: &[u8]) -> Result<(), CaseFault>
    ensures { OnOk result (length text.now < 2 ^ 31) }
{
    if text.len() > MOST_TEXT {
        return Err(CaseFault::Line);
    }
    Ok(())
}

/// The words of a text, which has no fault.
fn words_in(alloc: Global, text: &[u8]) -> Result<Words, CaseFault>
    ensures read { IfOk result (λ words. words_of text.now ≡ Ok words) }
    ensures tokens { IfOk result (λ words. AreTokensIn (length text.now) words) }
{
    check_short(text)?;
    match read_words(alloc, text) {
        Ok(words) => Ok(words),
        Err(_) => Err(CaseFault::Line),
    }
}

/// `words TEXT`: how many tokens there are, or the first fault.
pub fn answer_words(alloc: Global, given: &[u8], out: &mut Shown) -> Result<(), CaseFault> {
    check_short(given)?;
    match read_words(alloc, given) {
        Ok(words) => {
            out.put_number(words.tokens().len());
            out.put(b" tokens");
            Ok(())
        }
        Err(fault) => put_fault(fault, out),
    }
}

/// Whether a byte between two texts is the first fault, as a bad byte.
fn is_bad_between(alloc: Global, before: &[u8], byte: u8, after: &[u8]) -> Result<bool, CaseFault> {
    let mut text = Vec::from_slice(alloc, before)?;
    text.push(byte)?;
    text.extend_from_slice(after)?;
    check_short(&text)?;
    match read_words(alloc, &text) {
        Err(WordFault::BadByte(place)) => Ok(place as usize == before.len()),
        _ => Ok(false),
    }
}

/// `bad-bytes TEXT|TEXT`: the bytes that are bad between the two texts.
pub fn answer_bad_bytes(alloc: Global, given: &[u8], out: &mut Shown) -> Result<(), CaseFault> {
    let (before, after) = parted(given, b'|')?;
    for byte in 0u8..=255 {
        if is_bad_between(alloc, before, byte, after)? {
            out.put_number(byte);
            out.put_byte(b' ');
        }
    }
    out.put(b"are bad");
    Ok(())
}

/// Puts in a token, as `atom 3-5`.
fn put_token(token: &Token, out: &mut Shown) {
    let kind: &[u8] = match token.kind {
        Kind::Open => b"open",
        Kind::Close => b"close",
        Kind::Atom => b"atom",
    };
    put_counted(kind, token.start, out);
    out.put_byte(b'-');
    out.put_number(token.end);
}

/// `tokens TEXT`: each token, with the places at which it begins and before which it ends.
pub fn answer_tokens(alloc: Global, given: &[u8], out: &mut Shown) -> Result<(), CaseFault> {
    let words = words_in(alloc, given)?;
    for (turn, token) in words.tokens().iter().enumerate() {
        if turn > 0 {
            out.put(b", ");
        }
        put_token(token, out);
    }
    Ok(())
}

/// `written TEXT`: the words of a text, written again.
pub fn answer_written(alloc: Global, given: &[u8], out: &mut Shown) -> Result<(), CaseFault> {
    let words = words_in(alloc, given)?;
    let text = write_words(alloc, given, &words)?;
    out.put(&text);
    Ok(())
}

/// Puts in a word outside all groups: its atom, its raw text between `<` and `>`, and `|`.
fn put_word(text: &[u8], tokens: &[Token], word: Word, out: &mut Shown)
    requires tokens { AreTokensIn (length text.now) tokens.now }
    requires word { IsWordOf tokens.now word }
{
    if let Some(atom) = atom_text(text, tokens, word) {
        out.put(atom);
    }
    if let Some(raw) = raw_text(text, tokens, word) {
        out.put_byte(b'<');
        out.put(raw);
        out.put_byte(b'>');
    }
    out.put_byte(b'|');
}

/// Puts in the words outside all groups.
fn put_words(alloc: Global, text: &[u8], tokens: &[Token], out: &mut Shown) -> Result<(), CaseFault>
    requires { AreTokensIn (length text.now) tokens.now }
{
    for word in &top_words(alloc, tokens)? {
        put_word(text, tokens, *word, out);
    }
    Ok(())
}

/// `top-words TEXT`: the words outside all groups.
pub fn answer_top_words(alloc: Global, given: &[u8], out: &mut Shown) -> Result<(), CaseFault> {
    let words = words_in(alloc, given)?;
    put_words(alloc, given, words.tokens(), out)
}

/// Puts in the words inside the groups, and `.` behind each word outside all groups.
fn put_inner(alloc: Global, text: &[u8], tokens: &[Token], out: &mut Shown) -> Result<(), CaseFault>
    requires { AreTokensIn (length text.now) tokens.now }
{
    for word in &top_words(alloc, tokens)? {
        if word.first < word.last {
            put_words(alloc, text, inside(tokens, *word), out)?;
        }
        out.put_byte(b'.');
    }
    Ok(())
}

/// `inner-words TEXT`: for each word outside all groups, those in its group, and `.`.
pub fn answer_inner_words(alloc: Global, given: &[u8], out: &mut Shown) -> Result<(), CaseFault> {
    let words = words_in(alloc, given)?;
    put_inner(alloc, given, words.tokens(), out)
}

/// A number, or `none`.
fn put_number_or_none(number: Option<i64>, out: &mut Shown) {
    match number {
        Some(number) => out.put_number(number),
        None => out.put(b"none"),
    }
}

/// `number ATOM`: the whole number that an atom spells, or `none`.
pub fn answer_number(given: &[u8], out: &mut Shown) {
    put_number_or_none(read_number(given), out);
}

/// `length ATOM`: the tenths that an atom spells, or `none`.
pub fn answer_length(given: &[u8], out: &mut Shown) {
    put_number_or_none(read_tenths(given), out);
}

/// `group-text TEXT`: whether a text can stand between braces.
pub fn answer_group_text(given: &[u8], out: &mut Shown) {
    put_truth(is_group_text(given), out);
}

/// `value-text TEXT`: whether a text can be a title, and the value of a kept attribute.
pub fn answer_value_text(given: &[u8], out: &mut Shown) {
    put_truth(is_text_value(given), out);
}
