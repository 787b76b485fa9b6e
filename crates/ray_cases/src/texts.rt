//! The parts of what a row gives, and the text of what it answers.

use case_text::{CaseFault, Shown, words_of};
use std::alloc::Global;

/// What stands before the first such byte, and what follows it; `None` where there is none.
pub fn cut(text: &[u8], at: u8) -> Option<(&[u8], &[u8])> {
    let end = text.iter().position(|byte| *byte == at)?;
    Some((&text[..end], &text[end + 1..]))
}

/// The two fields of a text that `|` parts.
pub fn two_fields(text: &[u8]) -> Result<(&[u8], &[u8]), CaseFault> {
    cut(text, b'|').ok_or(CaseFault::Line)
}

/// The three fields of a text that `|` parts.
pub fn three_fields(text: &[u8]) -> Result<(&[u8], &[u8], &[u8]), CaseFault> {
    let (first, rest) = two_fields(text)?;
    let (second, third) = two_fields(rest)?;
    Ok((first, second, third))
}

/// The two words of a text.
pub fn two_words<'a>(alloc: Global, text: &'a [u8]) -> Result<(&'a [u8], &'a [u8]), CaseFault> {
    match *words_of(alloc, text)?.as_slice() {
        [first, second] => Ok((first, second)),
        _ => Err(CaseFault::Line),
    }
}

/// The three words of a text.
pub fn three_words<'a>(
    alloc: Global,
    text: &'a [u8],
) -> Result<(&'a [u8], &'a [u8], &'a [u8]), CaseFault> {
    match *words_of(alloc, text)?.as_slice() {
        [first, second, third] => Ok((first, second, third)),
        _ => Err(CaseFault::Line),
    }
}

/// The items of a list, which are parted by commas. A text of blanks alone has none.
pub fn items_of<'a>(alloc: Global, text: &'a [u8]) -> Result<Vec<&'a [u8]>, CaseFault> {
    let mut items = Vec::new(alloc);
    if words_of(alloc, text)?.is_empty() {
        return Ok(items);
    }
    let mut rest = text;
    for _turn in 0..text.len() {
        let Some((item, others)) = cut(rest, b',') else {
            break;
        };
        items.push(item)?;
        rest = others;
    }
    items.push(rest)?;
    Ok(items)
}

/// The whole number of a word.
pub fn whole_in(word: &[u8]) -> Result<i128, CaseFault> {
    let Ok(digits) = str::from_utf8(word) else {
        return Err(CaseFault::Number);
    };
    match digits.parse::<i128>() {
        Ok(number) => Ok(number),
        Err(_) => Err(CaseFault::Number),
    }
}

/// The number below 2^32 of a word.
pub fn number_in(word: &[u8]) -> Result<u32, CaseFault> {
    match u32::try_from(whole_in(word)?) {
        Ok(number) => Ok(number),
        Err(_) => Err(CaseFault::Number),
    }
}

/// The number below 2^64 of a word.
pub fn long_in(word: &[u8]) -> Result<u64, CaseFault> {
    match u64::try_from(whole_in(word)?) {
        Ok(number) => Ok(number),
        Err(_) => Err(CaseFault::Number),
    }
}

/// The one number below 2^32 of a text.
pub fn number_of(alloc: Global, text: &[u8]) -> Result<u32, CaseFault> {
    match *words_of(alloc, text)?.as_slice() {
        [word] => number_in(word),
        _ => Err(CaseFault::Line),
    }
}

/// Puts in a text.
pub fn push(out: &mut Shown, text: &[u8]) -> Result<(), CaseFault> {
    out.put(text);
    Ok(())
}

/// Puts in a text, and a number behind it.
pub fn push_number(
    _alloc: Global,
    out: &mut Shown,
    before: &[u8],
    number: u64,
) -> Result<(), CaseFault> {
    put_number(out, before, number);
    Ok(())
}

/// Puts in a text, and a number behind it.
pub fn put_number(out: &mut Shown, before: &[u8], number: u64) {
    out.put(before);
    out.put_number(number);
}

/// Puts in a comma before each item but the first.
pub fn put_comma(out: &mut Shown, item: usize) {
    if item > 0 {
        out.put(b", ");
    }
}
