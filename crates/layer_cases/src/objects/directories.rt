//! Directories and the calls on them.

use crate::objects::script::Script;
use crate::objects::shown::{put_counted, put_named};
use crate::objects::words::{name_of, names_of};
use case_text::{CaseFault, Shown, first_word, number_of};
use directory::{DirFault, Directory};
use name_core::Name;
use object_set::{Object, is_text_value};
use put_form::{read_put, write_put};
use report_text::{TextFault, names_text};
use std::alloc::Global;
use std::mem::swap;
use tcl_words::{read_words, top_words};

/// The most bytes of an object in a row.
const MOST: usize = 1_000_000;

/// A directory, and another that stands aside.
#[derive(Drop)]
pub struct Directories {
    here: Directory,
    aside: Directory,
}

impl Directories {
    /// Two empty directories.
    pub fn new(alloc: Global) -> Directories {
        Directories {
            here: Directory::new(alloc),
            aside: Directory::new(alloc),
        }
    }
}

/// Puts in why a directory is not changed.
fn put_fault(fault: &DirFault, out: &mut Shown) {
    match fault {
        DirFault::Exists => out.put(b"exists"),
        DirFault::Missing => out.put(b"missing"),
        DirFault::Full => out.put(b"full"),
        DirFault::Cycle(name) => put_named(b"cycle", name.bytes(), out),
        DirFault::Deep(depth) => put_counted(b"deep", *depth, out),
        DirFault::Memory => out.put(b"memory"),
    }
}

/// Puts in what an edit answers.
fn put_answer(answer: Result<(), DirFault>, out: &mut Shown) {
    match answer {
        Ok(()) => out.put(b"ok"),
        Err(fault) => put_fault(&fault, out),
    }
}

/// Puts in the written lines of a name and its object.
fn put_written(
    alloc: Global,
    name: &Name,
    object: &Object,
    out: &mut Shown,
) -> Result<(), CaseFault> {
    let mut text = Vec::new(alloc);
    write_put(alloc, name, object, &mut text)?;
    out.put(&text);
    Ok(())
}

/// Puts in the written lines of all objects.
fn put_listing(alloc: Global, directory: &Directory, out: &mut Shown) -> Result<(), CaseFault> {
    for place in 0..directory.len() {
        if let Some((name, object)) = directory.at(place) {
            put_written(alloc, name, object, out)?;
        }
    }
    Ok(())
}

/// The text `put NAME TYPE KEY VALUE ..`, which is short.
fn put_text(alloc: Global, rest: &[u8]) -> Result<Vec<u8>, CaseFault> {
    let mut text = Vec::from_slice(alloc, b"put ")?;
    text.extend_from_slice(rest)?;
    Ok(text)
}

/// The name and the object of `put NAME TYPE KEY VALUE ..`.
fn object_in(alloc: Global, text: &[u8]) -> Result<(Name, Object), CaseFault> {
    if text.len() > MOST {
        return Err(CaseFault::Number);
    }
    let Ok(read) = read_words(alloc, text) else {
        return Err(CaseFault::Line);
    };
    let words = top_words(alloc, read.tokens())?;
    if words.len() > MOST {
        return Err(CaseFault::Number);
    }
    match read_put(alloc, text, read.tokens(), &words) {
        Ok(put) => Ok(put),
        Err(_) => Err(CaseFault::Line),
    }
}

/// The name and the object of `NAME TYPE KEY VALUE ..`.
fn object_of(alloc: Global, rest: &[u8]) -> Result<(Name, Object), CaseFault> {
    let text = put_text(alloc, rest)?;
    object_in(alloc, &text)
}

/// `put NAME TYPE KEY VALUE ..`: puts an object.
fn put(
    alloc: Global,
    directory: &mut Directory,
    rest: &[u8],
    out: &mut Shown,
) -> Result<(), CaseFault> {
    let (name, object) = object_of(alloc, rest)?;
    put_answer(directory.put(&name, object), out);
    Ok(())
}

/// `replace NAME TYPE KEY VALUE ..`: replaces the object of that name.
fn replace(
    alloc: Global,
    directory: &mut Directory,
    rest: &[u8],
    out: &mut Shown,
) -> Result<(), CaseFault> {
    let (name, object) = object_of(alloc, rest)?;
    put_answer(directory.replace(&name, object), out);
    Ok(())
}

/// `remove NAME`
fn remove(directory: &mut Directory, name: &[u8], out: &mut Shown) -> Result<(), CaseFault> {
    let name = name_of(name)?;
    put_answer(directory.remove(&name), out);
    Ok(())
}

/// `rename OLD NEW`
fn rename(
    alloc: Global,
    directory: &mut Directory,
    names: &[u8],
    out: &mut Shown,
) -> Result<(), CaseFault> {
    let (old, new) = first_word(names);
    let old = name_of(old)?;
    let new = name_of(new)?;
    put_answer(directory.rename_all(alloc, &old, &new), out);
    Ok(())
}

/// `remove-all NAMES`
fn remove_all(
    alloc: Global,
    directory: &mut Directory,
    names: &[u8],
    out: &mut Shown,
) -> Result<(), CaseFault> {
    let names = names_of(alloc, names)?;
    directory.remove_all(alloc, &names)?;
    out.put(b"ok");
    Ok(())
}

/// The name `n` with five digits.
fn numbered(number: usize) -> Result<Name, CaseFault> {
    let digit = |place: usize| -> u8 { b'0' + (number / place % 10) as u8 };
    name_of(&[
        b'n',
        digit(10_000),
        digit(1_000),
        digit(100),
        digit(10),
        digit(1),
    ])
}

/// Puts a copy of the object of a name under the name of a number.
fn put_again(
    alloc: Global,
    directory: &mut Directory,
    name: &Name,
    number: usize,
) -> Result<Result<(), DirFault>, CaseFault> {
    let again = numbered(number)?;
    let object = match directory.get(name) {
        Some(object) => object.copy(alloc)?,
        None => return Err(CaseFault::Line),
    };
    Ok(directory.put(&again, object))
}

/// `fill COUNT NAME`: puts so many copies of the object of that name, under the names of the numbers from 0.
fn fill(
    alloc: Global,
    directory: &mut Directory,
    rest: &[u8],
    out: &mut Shown,
) -> Result<(), CaseFault> {
    let (count, name) = first_word(rest);
    let name = name_of(name)?;
    for number in 0..number_of(count)? {
        if let Err(fault) = put_again(alloc, directory, &name, number)? {
            put_fault(&fault, out);
            return Ok(());
        }
    }
    out.put(b"ok");
    Ok(())
}

/// `drain FROM TO`: removes the names of the numbers from the one to before the other, one by one.
fn drain(directory: &mut Directory, rest: &[u8], out: &mut Shown) -> Result<(), CaseFault> {
    let (from, to) = first_word(rest);
    for number in number_of(from)?..number_of(to)? {
        if let Err(fault) = directory.remove(&numbered(number)?) {
            put_fault(&fault, out);
            return Ok(());
        }
    }
    out.put(b"ok");
    Ok(())
}

/// `title TEXT`
fn set_title(
    alloc: Global,
    directory: &mut Directory,
    text: &[u8],
    out: &mut Shown,
) -> Result<(), CaseFault> {
    if !is_text_value(text) {
        return Err(CaseFault::Line);
    }
    directory.set_title(alloc, text)?;
    out.put(b"ok");
    Ok(())
}

/// `get NAME`: the written lines of the object, or `missing`.
fn put_object_of(
    alloc: Global,
    directory: &Directory,
    name: &[u8],
    out: &mut Shown,
) -> Result<(), CaseFault> {
    let name = name_of(name)?;
    match directory.get(&name) {
        Some(object) => put_written(alloc, &name, object, out),
        None => {
            out.put(b"missing");
            Ok(())
        }
    }
}

/// `references NAME`: how many leaves name it.
fn put_references(directory: &Directory, name: &[u8], out: &mut Shown) -> Result<(), CaseFault> {
    let name = name_of(name)?;
    out.put_number(directory.references(&name));
    Ok(())
}

/// `names ROOM`: the number of lines of `names`, and these, or `no room`.
fn put_names(
    alloc: Global,
    directory: &Directory,
    room: &[u8],
    out: &mut Shown,
) -> Result<(), CaseFault> {
    let room = number_of(room)?;
    if room > 100_000 {
        return Err(CaseFault::Number);
    }
    match names_text(alloc, directory, room as u64) {
        Ok(body) => {
            out.put_number(body.lines());
            put_named(b" lines", body.text(), out);
        }
        Err(TextFault::Room) => out.put(b"no room"),
        Err(TextFault::Memory) => return Err(CaseFault::Memory),
    }
    Ok(())
}

/// What a step asks of a directory that it leaves as it is.
fn put_asked(
    alloc: Global,
    directory: &Directory,
    word: &str,
    rest: &[u8],
    out: &mut Shown,
) -> Result<(), CaseFault> {
    match word {
        "list" => return put_listing(alloc, directory, out),
        "get" => return put_object_of(alloc, directory, rest, out),
        "references" => return put_references(directory, rest, out),
        "names" => return put_names(alloc, directory, rest, out),
        "len" => out.put_number(directory.len()),
        "told-title" => out.put(directory.title()),
        _ => return Err(CaseFault::Kind),
    }
    Ok(())
}

/// A step on a directory.
fn step(
    alloc: Global,
    directory: &mut Directory,
    word: &str,
    rest: &[u8],
    out: &mut Shown,
) -> Result<(), CaseFault> {
    match word {
        "put" => put(alloc, directory, rest, out),
        "replace" => replace(alloc, directory, rest, out),
        "remove" => remove(directory, rest, out),
        "rename" => rename(alloc, directory, rest, out),
        "remove-all" => remove_all(alloc, directory, rest, out),
        "fill" => fill(alloc, directory, rest, out),
        "drain" => drain(directory, rest, out),
        "title" => set_title(alloc, directory, rest, out),
        _ => put_asked(alloc, directory, word, rest, out),
    }
}

impl Script for Directories {
    fn step(
        &mut self,
        alloc: Global,
        word: &str,
        rest: &[u8],
        out: &mut Shown,
    ) -> Result<(), CaseFault> {
        match word {
            "copy" => self.aside = self.here.copy(alloc)?,
            "other" => swap(&mut self.here, &mut self.aside),
            _ => return step(alloc, &mut self.here, word, rest, out),
        }
        out.put(b"ok");
        Ok(())
    }
}
