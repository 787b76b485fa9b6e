//! A row of a table: what is asked, what is given, and what is wanted.

use crate::bytes::expanded;
use crate::fault::CaseFault;
use crate::line::first_word;
use std::alloc::Global;

/// A row: its first word, the rest up to ` => `, and what stands behind that, as the bytes that they stand for.
#[derive(Drop)]
pub struct Row<'a> {
    pub kind: &'a [u8],
    pub given: Vec<u8>,
    pub wanted: Vec<u8>,
}

/// What stands before ` => `, and what behind it.
fn parts_of(line: &[u8]) -> Option<(&[u8], &[u8])> {
    let mut rest = line;
    for at in 0..line.len() {
        match rest {
            [b' ', b'=', b'>', b' ', wanted @ ..] => return Some((&line[..at], wanted)),
            [b' ', b'=', b'>'] => return Some((&line[..at], &line[line.len()..])),
            [_, others @ ..] => rest = others,
            [] => return None,
        }
    }
    None
}

/// Whether a line is blank or begins with `#`.
pub fn is_remark(line: &[u8]) -> bool {
    match line {
        [] => true,
        [first, ..] => *first == b'#',
    }
}

/// The row of a line.
pub fn row_of(alloc: Global, line: &[u8]) -> Result<Row<'_>, CaseFault> {
    let (front, wanted) = parts_of(line).ok_or(CaseFault::Line)?;
    let (kind, given) = first_word(front);
    let given = expanded(alloc, given)?;
    let wanted = expanded(alloc, wanted)?;
    Ok(Row {
        kind,
        given,
        wanted,
    })
}
