//! Rows of demos: each has a number, and says what its demo has. They are of the tool `dev/demo_text`, which makes demos
//! from their rules alone.

use asc_form::{AscFault, read_asc, write_asc};
use case_text::{CaseFault, Lines, Shown, first_word, number_of};
use scene_make::{Demo, make_demo};
use std::alloc::Global;

/// The most bytes of a model.
const MOST_BYTES: usize = 16_777_216;

/// The demo of the number in a word.
fn demo_of(alloc: Global, word: &[u8]) -> Result<Demo, CaseFault> {
    let number = number_of(word)?;
    if number >= 2_147_483_648 {
        return Err(CaseFault::Number);
    }
    Ok(make_demo(alloc, number as u32)?)
}

/// Puts in how many bytes and lines a text has.
fn put_size(text: &[u8], out: &mut Shown) {
    let mut lines = 0u64;
    for byte in text {
        if *byte == b'\n' {
            lines = lines.saturating_add(1);
        }
    }
    out.put(b"bytes ");
    out.put_number(text.len());
    out.put(b" lines ");
    out.put_number(lines);
}

/// The sum of a text by Adler's rule, two sums modulo 65,521.
fn adler(text: &[u8]) -> u32 {
    let mut low = 1u32;
    let mut high = 0u32;
    for byte in text {
        low = (low % 65_521 + u32::from(*byte)) % 65_521;
        high = (high % 65_521 + low) % 65_521;
    }
    high % 65_521 * 65_536 + low % 65_521
}

/// Puts in one line of a text, counted from 1.
fn put_line_at(text: &[u8], place: usize, out: &mut Shown) -> Result<(), CaseFault> {
    let mut number = 0usize;
    for line in Lines::of(text) {
        number = number.saturating_add(1);
        if number == place {
            out.put(line);
            return Ok(());
        }
    }
    Err(CaseFault::Line)
}

/// Puts in how many objects a text is read as, and whether it is the written text of them.
fn put_loaded(alloc: Global, text: &[u8], out: &mut Shown) -> Result<(), CaseFault> {
    if text.len() > MOST_BYTES {
        return Err(CaseFault::Number);
    }
    let directory = match read_asc(alloc, text) {
        Ok(directory) => directory,
        Err(AscFault::At { .. }) => return Err(CaseFault::Line),
        Err(AscFault::Memory) => return Err(CaseFault::Memory),
    };
    out.put(b"objects ");
    out.put_number(directory.len());
    if let Some(again) = write_asc(alloc, &directory, MOST_BYTES as u64)? {
        if again.as_slice() == text {
            out.put(b" written as it was");
        }
    }
    Ok(())
}

/// Puts in what is asked of a demo.
fn put_asked(
    alloc: Global,
    demo: &Demo,
    asked: &[u8],
    place: &[u8],
    out: &mut Shown,
) -> Result<(), CaseFault> {
    let text = demo.load.items();
    match asked {
        b"size" => put_size(text, out),
        b"sum" => out.put_number(adler(text)),
        b"line" => return put_line_at(text, number_of(place)?, out),
        b"loaded" => return put_loaded(alloc, text, out),
        b"script" => out.put(demo.script.items()),
        _ => return Err(CaseFault::Kind),
    }
    Ok(())
}

/// `demo size N`, `demo sum N`, `demo line N PLACE`, `demo loaded N` and `demo script N`
pub fn answer_demo(alloc: Global, given: &[u8], out: &mut Shown) -> Result<(), CaseFault> {
    let (asked, rest) = first_word(given);
    let (number, place) = first_word(rest);
    let demo = demo_of(alloc, number)?;
    put_asked(alloc, &demo, asked, place, out)
}
