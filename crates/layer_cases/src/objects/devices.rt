//! Sources, sinks and shelves in memory.

ghost use Rattle.std.specs.Prelude.{◌<◌, IfOk, vec_len};

use crate::objects::script::Script;
use crate::objects::words::{name_of, parted};
use case_text::{CaseFault, Shown, first_word, number_of, words_of};
use item_list::Items;
use outside_core::{
    Failed, File, ReadStop, Shelf, ShelfFault, Sink, Source, VecShelf, VecSink, VecSource,
    read_all, write_all,
};
use std::alloc::Global;

/// The most bytes that a row reads at once.
const MOST: usize = 100_000;

/// The numbers of the calls that fail.
fn failing_of(alloc: Global, text: &[u8]) -> Result<Vec<u64>, CaseFault> {
    let mut numbers = Vec::new(alloc);
    for word in words_of(alloc, text)? {
        numbers.push(number_of(word)? as u64)?;
    }
    Ok(numbers)
}

/// Puts in a word, and bytes behind a blank where there are some.
fn put_bytes(word: &[u8], bytes: &[u8], out: &mut Shown) {
    out.put(word);
    if !bytes.is_empty() {
        out.put_byte(b' ');
        out.put(bytes);
    }
}

/// Puts in how many bytes a call moved, or `failed`.
fn put_count(answer: Result<usize, Failed>, out: &mut Shown) {
    match answer {
        Ok(count) => out.put_number(count),
        Err(Failed) => out.put(b"failed"),
    }
}

/// Puts in `ok` or `failed`.
fn put_outcome(is_done: bool, out: &mut Shown) {
    out.put(if is_done { b"ok" } else { b"failed" });
}

/// A source.
#[derive(Drop)]
pub struct Sources {
    source: VecSource,
}

/// A source without bytes.
pub fn no_source(alloc: Global) -> Sources {
    Sources {
        source: VecSource::new(Vec::new(alloc), Vec::new(alloc)),
    }
}

/// `of BYTES/FAILING`: a source of these bytes, of which the calls with these numbers fail.
fn source_of(alloc: Global, text: &[u8]) -> Result<VecSource, CaseFault> {
    let (bytes, failing) = parted(text, b'/')?;
    let failing = failing_of(alloc, failing)?;
    Ok(VecSource::new(Vec::from_slice(alloc, bytes)?, failing))
}

/// A buffer of so many `-`, which are not none.
fn buffer_of(alloc: Global, count: &[u8]) -> Result<Vec<u8>, CaseFault>
    ensures { IfOk result (λ v. 0 < vec_len v) }
{
    let count = number_of(count)?;
    if count == 0 || count > MOST {
        return Err(CaseFault::Number);
    }
    Ok(vec![in alloc; b'-'; count]?)
}

/// `read COUNT`: reads into a buffer of so many `-`, and shows the answer and the buffer.
fn read(
    alloc: Global,
    source: &mut VecSource,
    count: &[u8],
    out: &mut Shown,
) -> Result<(), CaseFault> {
    let mut buffer = buffer_of(alloc, count)?;
    put_count(source.read(&mut buffer), out);
    out.put_byte(b' ');
    out.put(&buffer);
    Ok(())
}

/// `read-all MOST`
fn read_whole(
    alloc: Global,
    source: &mut VecSource,
    most: &[u8],
    out: &mut Shown,
) -> Result<(), CaseFault> {
    let most = number_of(most)?;
    if most > MOST {
        return Err(CaseFault::Number);
    }
    match read_all(alloc, source, most) {
        Ok(bytes) => put_bytes(b"all", &bytes, out),
        Err(ReadStop::TooLong) => out.put(b"too long"),
        Err(ReadStop::Failed) => out.put(b"failed"),
        Err(ReadStop::Memory) => return Err(CaseFault::Memory),
    }
    Ok(())
}

impl Script for Sources {
    fn step(
        &mut self,
        alloc: Global,
        word: &str,
        rest: &[u8],
        out: &mut Shown,
    ) -> Result<(), CaseFault> {
        match word {
            "of" => {
                self.source = source_of(alloc, rest)?;
                out.put(b"ok");
            }
            "read" => return read(alloc, &mut self.source, rest, out),
            "read-all" => return read_whole(alloc, &mut self.source, rest, out),
            "left" => put_bytes(b"left", self.source.left(), out),
            _ => return Err(CaseFault::Kind),
        }
        Ok(())
    }
}

/// A sink.
#[derive(Drop)]
pub struct Sinks {
    sink: VecSink,
}

/// A sink without room.
pub fn no_sink(alloc: Global) -> Result<Sinks, CaseFault> {
    let sink = VecSink::new(alloc, 0, 1, Vec::new(alloc))?;
    Ok(Sinks { sink })
}

/// `of ROOM STEP/FAILING`: a sink of so much room, which takes so many bytes at once.
fn sink_of(alloc: Global, text: &[u8]) -> Result<VecSink, CaseFault> {
    let (sizes, failing) = parted(text, b'/')?;
    let (room, step) = first_word(sizes);
    let (room, step) = (number_of(room)?, number_of(step)?);
    if step == 0 || room > MOST {
        return Err(CaseFault::Number);
    }
    Ok(VecSink::new(alloc, room, step, failing_of(alloc, failing)?)?)
}

/// `write TEXT`
fn write(sink: &mut VecSink, text: &[u8], out: &mut Shown) -> Result<(), CaseFault> {
    if text.is_empty() {
        return Err(CaseFault::Line);
    }
    put_count(sink.write(text), out);
    Ok(())
}

impl Script for Sinks {
    fn step(
        &mut self,
        alloc: Global,
        word: &str,
        rest: &[u8],
        out: &mut Shown,
    ) -> Result<(), CaseFault> {
        match word {
            "of" => {
                self.sink = sink_of(alloc, rest)?;
                out.put(b"ok");
            }
            "write" => return write(&mut self.sink, rest, out),
            "write-all" => put_outcome(write_all(&mut self.sink, rest).is_ok(), out),
            "held" => put_bytes(b"held", self.sink.bytes(), out),
            _ => return Err(CaseFault::Kind),
        }
        Ok(())
    }
}

/// A shelf.
#[derive(Drop)]
pub struct Shelves {
    shelf: VecShelf,
}

/// A shelf without files.
pub fn no_shelf(alloc: Global) -> Shelves {
    Shelves {
        shelf: VecShelf::new(alloc, Vec::new(alloc), Vec::new(alloc)),
    }
}

/// The file of a name and its bytes, as `a=one`.
fn file_of(alloc: Global, text: &[u8]) -> Result<File, CaseFault> {
    let (name, bytes) = parted(text, b'=')?;
    let name = name_of(name)?;
    Ok(File {
        name,
        bytes: Items::of_vec(Vec::from_slice(alloc, bytes)?),
    })
}

/// `of FILE/FAILING`: a shelf of one file, of which the calls with these numbers fail.
fn shelf_of(alloc: Global, text: &[u8]) -> Result<VecShelf, CaseFault> {
    let (file, failing) = parted(text, b'/')?;
    let mut files = Vec::new(alloc);
    files.push(file_of(alloc, file)?)?;
    Ok(VecShelf::new(alloc, files, failing_of(alloc, failing)?))
}

/// Puts in why a call on a shelf has no answer.
fn put_shelf_fault(fault: ShelfFault, out: &mut Shown) -> Result<(), CaseFault> {
    match fault {
        ShelfFault::Failed => {
            out.put(b"failed");
            Ok(())
        }
        ShelfFault::Memory => Err(CaseFault::Memory),
    }
}

/// `get NAME MOST`
fn get(alloc: Global, shelf: &mut VecShelf, text: &[u8], out: &mut Shown) -> Result<(), CaseFault> {
    let (name, most) = first_word(text);
    let name = name_of(name)?;
    match shelf.get(alloc, &name, number_of(most)?) {
        Ok(Some(bytes)) => put_bytes(b"has", &bytes, out),
        Ok(None) => out.put(b"none"),
        Err(fault) => return put_shelf_fault(fault, out),
    }
    Ok(())
}

/// `put NAME=BYTES`
fn put(shelf: &mut VecShelf, text: &[u8], out: &mut Shown) -> Result<(), CaseFault> {
    let (name, bytes) = parted(text, b'=')?;
    match shelf.put(&name_of(name)?, bytes) {
        Ok(()) => {
            out.put(b"ok");
            Ok(())
        }
        Err(fault) => put_shelf_fault(fault, out),
    }
}

/// Puts in the files that were put.
fn put_puts(shelf: &VecShelf, out: &mut Shown) {
    out.put(b"puts");
    for file in shelf.puts() {
        out.put_byte(b' ');
        out.put(file.name.bytes());
        out.put_byte(b'=');
        out.put(file.bytes.items());
    }
}

impl Script for Shelves {
    fn step(
        &mut self,
        alloc: Global,
        word: &str,
        rest: &[u8],
        out: &mut Shown,
    ) -> Result<(), CaseFault> {
        match word {
            "of" => {
                self.shelf = shelf_of(alloc, rest)?;
                out.put(b"ok");
            }
            "get" => return get(alloc, &mut self.shelf, rest, out),
            "put" => return put(&mut self.shelf, rest, out),
            "puts" => put_puts(&self.shelf, out),
            _ => return Err(CaseFault::Kind),
        }
        Ok(())
    }
}
