//! Rows of models, of words of the command line, and of demos.

mod demos;

use asc_form::{AscFault, AscKind, read_asc, write_asc};
use case_text::{CaseFault, Shown, words_of};
pub use demos::answer_demo;
use directory::Directory;
use option_words::{Model, Options, OptionsFault, read_options};
use std::alloc::Global;

/// The most bytes of a text in a row, and of one that is written of it.
const MOST_BYTES: usize = 100_000_000;

/// The kind of a fault as the program prints it.
fn kind_text(kind: AscKind) -> &'static [u8] {
    match kind {
        AscKind::Words => b"words",
        AscKind::NoType => b"type",
        AscKind::Attr => b"attr",
        AscKind::Tree => b"tree",
        AscKind::Name => b"name",
        AscKind::Number => b"number",
        AscKind::Shape => b"shape",
        AscKind::Exists => b"exists",
        AscKind::Full => b"full",
        AscKind::Cycle => b"cycle",
        AscKind::Deep => b"deep",
    }
}

/// The written text of a directory.
fn written(alloc: Global, directory: &Directory) -> Result<Vec<u8>, CaseFault> {
    match write_asc(alloc, directory, MOST_BYTES as u64)? {
        Some(text) => Ok(text),
        None => Err(CaseFault::Number),
    }
}

/// Whether a written text is read as a directory of which it is the written text.
fn is_read_again(alloc: Global, text: &[u8]) -> Result<bool, CaseFault> {
    if text.len() > MOST_BYTES {
        return Err(CaseFault::Number);
    }
    match read_asc(alloc, text) {
        Ok(directory) => Ok(written(alloc, &directory)?.as_slice() == text),
        Err(AscFault::At { .. }) => Ok(false),
        Err(AscFault::Memory) => Err(CaseFault::Memory),
    }
}

/// Puts in what is written of a directory, and whether this is read as the same again.
fn put_saved(alloc: Global, directory: &Directory, out: &mut Shown) -> Result<(), CaseFault> {
    let text = written(alloc, directory)?;
    out.put(b"saved ");
    out.put(&text);
    if !is_read_again(alloc, &text)? {
        out.put(b" that is not read as the same again");
    }
    Ok(())
}

/// `load TEXT => saved WRITTEN`, or `line L KIND`
pub fn answer_load(alloc: Global, text: &[u8], out: &mut Shown) -> Result<(), CaseFault> {
    if text.len() > MOST_BYTES {
        return Err(CaseFault::Number);
    }
    match read_asc(alloc, text) {
        Ok(directory) => put_saved(alloc, &directory, out),
        Err(AscFault::At { line, kind }) => {
            out.put(b"line ");
            out.put_number(line);
            out.put_byte(b' ');
            out.put(kind_text(kind));
            Ok(())
        }
        Err(AscFault::Memory) => Err(CaseFault::Memory),
    }
}

/// The text of bytes of ASCII.
fn string_of(alloc: Global, word: &[u8]) -> Result<String, CaseFault> {
    let mut text = String::new(alloc);
    for byte in word {
        text.push(char::from(*byte))?;
    }
    Ok(text)
}

/// The words of a row, each of bytes of ASCII.
fn strings_of(alloc: Global, given: &[u8]) -> Result<Vec<String>, CaseFault> {
    let mut strings = Vec::new(alloc);
    for word in words_of(alloc, given)? {
        strings.push(string_of(alloc, word)?)?;
    }
    Ok(strings)
}

/// Puts in `load NAME`, `demo N` or `nothing`.
fn put_model(model: Model, out: &mut Shown) {
    match model {
        Model::Empty => out.put(b"nothing"),
        Model::OfFile(name) => {
            out.put(b"load ");
            out.put(name.bytes());
        }
        Model::OfDemo(number) => {
            out.put(b"demo ");
            out.put_number(number);
        }
    }
}

/// Puts in what the words ask for: the model, behind it ` replay NAME` where the order of a run is asked for, and
/// ` workers N` where these are not 4.
fn put_options(options: &Options, out: &mut Shown) {
    put_model(options.model, out);
    if let Some(name) = options.replay {
        out.put(b" replay ");
        out.put(name.bytes());
    }
    if options.workers != 4 {
        out.put(b" workers ");
        out.put_number(options.workers);
    }
}

/// `options WORD .. => load NAME`, `demo N`, or `nothing`, with ` replay NAME` where it is asked for, and ` workers N` where
/// these are not 4; or `usage`
pub fn answer_options(alloc: Global, given: &[u8], out: &mut Shown) -> Result<(), CaseFault> {
    let words = strings_of(alloc, given)?;
    match read_options(alloc, &words) {
        Ok(options) => put_options(&options, out),
        Err(OptionsFault::Usage) => out.put(b"usage"),
        Err(OptionsFault::Memory) => return Err(CaseFault::Memory),
    }
    Ok(())
}
