//! The bytes that a text of a case stands for.
//!
//! A text stands for itself but for these: `\\` is a backslash, `\s` a blank, `\t` a tab, `\r` a carriage return, `\n`
//! a line feed, and `\xHH` the byte of two hexadecimal digits. `\N(TEXT)` is TEXT so many times, N being a number. In
//! such a TEXT, which has no `)`, `%` is the number of the turn, from 1, and `%+K` that number and K more.

use crate::fault::CaseFault;
use crate::line::number_of;
use std::alloc::Global;

/// The bytes that a text of a case stands for.
pub fn expanded(alloc: Global, text: &[u8]) -> Result<Vec<u8>, CaseFault> {
    let mut out = Vec::new(alloc);
    expand(text, &mut out)?;
    Ok(out)
}

/// Puts the bytes that a text of a case stands for at the end.
pub fn expand(text: &[u8], out: &mut Vec<u8>) -> Result<(), CaseFault> {
    let mut rest = text;
    for _turn in 0..text.len() {
        rest = match rest {
            [] => return Ok(()),
            [b'\\', others @ ..] => expand_escaped(others, out)?,
            [byte, others @ ..] => {
                out.push(*byte)?;
                others
            }
        };
    }
    Ok(())
}

/// Puts in what an escape stands for, and answers what follows it.
fn expand_escaped<'a>(text: &'a [u8], out: &mut Vec<u8>) -> Result<&'a [u8], CaseFault> {
    match text {
        [b'0'..=b'9', ..] => expand_times(text, out),
        _ => expand_byte(text, out),
    }
}

/// The value of a hexadecimal digit.
fn hexadecimal(digit: u8) -> Result<u8, CaseFault> {
    match digit {
        b'0'..=b'9' => Ok(digit - b'0'),
        b'a'..=b'f' => Ok(digit - b'a' + 10),
        _ => Err(CaseFault::Escape),
    }
}

/// Puts in one byte, and answers what follows.
fn expand_byte<'a>(text: &'a [u8], out: &mut Vec<u8>) -> Result<&'a [u8], CaseFault> {
    let (byte, rest) = match text {
        [b'\\', others @ ..] => (b'\\', others),
        [b's', others @ ..] => (b' ', others),
        [b't', others @ ..] => (b'\t', others),
        [b'r', others @ ..] => (b'\r', others),
        [b'n', others @ ..] => (b'\n', others),
        [b'x', high, low, others @ ..] => {
            let high = hexadecimal(*high)?;
            let low = hexadecimal(*low)?;
            ((high << 4) | low, others)
        }
        _ => return Err(CaseFault::Escape),
    };
    out.push(byte)?;
    Ok(rest)
}

/// The digits at the front, and what follows them.
fn digits_of(text: &[u8]) -> (&[u8], &[u8]) {
    match text.iter().position(|byte| !byte.is_ascii_digit()) {
        Some(end) => (&text[..end], &text[end..]),
        None => (text, &text[text.len()..]),
    }
}

/// Puts in a text so many times, and answers what follows it.
fn expand_times<'a>(text: &'a [u8], out: &mut Vec<u8>) -> Result<&'a [u8], CaseFault> {
    let (digits, rest) = digits_of(text);
    let count = number_of(digits)?;
    let [b'(', inside @ ..] = rest else {
        return Err(CaseFault::Escape);
    };
    let end = inside
        .iter()
        .position(|byte| *byte == b')')
        .ok_or(CaseFault::Escape)?;
    let piece = &inside[..end];
    for turn in 0..count {
        expand_turn(piece, turn, out)?;
    }
    Ok(&inside[end + 1..])
}

/// Puts in a text as it stands at a turn, counted from 0.
fn expand_turn(piece: &[u8], turn: usize, out: &mut Vec<u8>) -> Result<(), CaseFault> {
    let mut rest = piece;
    for _turn in 0..piece.len() {
        let [byte, others @ ..] = rest else {
            return Ok(());
        };
        rest = match *byte {
            b'\\' => expand_byte(others, out)?,
            b'%' => expand_number(others, turn, out)?,
            byte => {
                out.push(byte)?;
                others
            }
        };
    }
    Ok(())
}

/// Puts in the number of a turn, or that number and K more where `+K` follows, and answers what follows.
fn expand_number<'a>(
    text: &'a [u8],
    turn: usize,
    out: &mut Vec<u8>,
) -> Result<&'a [u8], CaseFault> {
    let [b'+', others @ ..] = text else {
        push_number(turn, out)?;
        return Ok(text);
    };
    let (digits, others) = digits_of(others);
    push_number(turn.saturating_add(number_of(digits)?), out)?;
    Ok(others)
}

/// Puts in the number after this one in decimal digits.
fn push_number(below: usize, out: &mut Vec<u8>) -> Result<(), CaseFault> {
    let mut buffer = itoa::Buffer::new();
    out.extend_from_slice(buffer.format(below.saturating_add(1)).as_bytes())?;
    Ok(())
}
