//! Names and lists of names, as they stand in rows.

use case_text::{CaseFault, words_of};
use name_core::Name;
use std::alloc::Global;

/// The name of a word.
pub fn name_of(word: &[u8]) -> Result<Name, CaseFault> {
    Name::read(word).map_err(|_fault| CaseFault::Line)
}

/// The names of words, as `a b`.
pub fn names_of(alloc: Global, text: &[u8]) -> Result<Vec<Name>, CaseFault> {
    let mut names = Vec::new(alloc);
    for word in words_of(alloc, text)? {
        names.push(name_of(word)?)?;
    }
    Ok(names)
}

/// The bytes before the first such byte, and those after it.
pub fn parted(text: &[u8], at: u8) -> Result<(&[u8], &[u8]), CaseFault> {
    let place = text
        .iter()
        .position(|byte| *byte == at)
        .ok_or(CaseFault::Line)?;
    Ok((&text[..place], &text[place + 1..]))
}
