ghost use Rattle.std.specs.Prelude.{◌<◌, ◌≤◌, length};
ghost use Rattle.std.specs.Iterator.{at_most};

use crate::fault::CaseFault;
use std::alloc::Global;

/// The lines of a text, in order; a last piece that isn't empty is a line too.
#[derive(Clone, Copy, Drop)]
pub struct Lines<'a> {
    rest: &'a [u8],
}

impl<'a> Lines<'a> {
    /// The lines of a text.
    pub fn of(text: &'a [u8]) -> Lines<'a> {
        Lines { rest: text }
    }
}

/// What stands before the first such byte, and what follows it.
fn cut(text: &[u8], at: u8) -> (&[u8], &[u8])
    requires { 0 < length text.now }
    ensures { length result.1.now < length text.now }
{
    match text.iter().position(|byte| *byte == at) {
        Some(end) => (&text[..end], &text[end + 1..]),
        None => (text, &text[text.len()..]),
    }
}

impl<'a> Iterator for Lines<'a> {
    type Item = &'a [u8];

    ghost remaining = { λ s. at_most (length s.rest.now) };

    fn next(&mut self) -> Option<&'a [u8]> {
        if self.rest.is_empty() {
            return None;
        }
        let (line, rest) = cut(self.rest, b'\n');
        self.rest = rest;
        Some(line)
    }
}

/// The bytes before the first blank of a line, and those after it.
pub fn first_word(line: &[u8]) -> (&[u8], &[u8]) {
    if line.is_empty() {
        return (line, line);
    }
    cut(line, b' ')
}

/// The words of a text that are parted by blanks.
pub fn words_of<'a>(alloc: Global, text: &'a [u8]) -> Result<Vec<&'a [u8]>, CaseFault> {
    let mut words = Vec::new(alloc);
    let mut rest = text;
    for _turn in 0..text.len() {
        if rest.is_empty() {
            break;
        }
        let (word, others) = cut(rest, b' ');
        if !word.is_empty() {
            words.push(word)?;
        }
        rest = others;
    }
    Ok(words)
}

/// The number that a word of digits is, below 2^32.
pub fn number_of(word: &[u8]) -> Result<usize, CaseFault> {
    if let [b'+', ..] = word {
        return Err(CaseFault::Number);
    }
    let Ok(digits) = str::from_utf8(word) else {
        return Err(CaseFault::Number);
    };
    let Ok(number) = digits.parse::<u32>() else {
        return Err(CaseFault::Number);
    };
    Ok(number as usize)
}

/// The whole numbers of a text, which are parted by blanks.
pub fn numbers_of(alloc: Global, text: &[u8]) -> Result<Vec<i128>, CaseFault> {
    let mut numbers = Vec::new(alloc);
    for word in words_of(alloc, text)? {
        let Ok(digits) = str::from_utf8(word) else {
            return Err(CaseFault::Number);
        };
        let Ok(number) = digits.parse::<i128>() else {
            return Err(CaseFault::Number);
        };
        numbers.push(number)?;
    }
    Ok(numbers)
}
