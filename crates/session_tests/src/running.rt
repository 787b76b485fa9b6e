//! Runs of the program over forms in memory.

use mged_top::{Status, mged_main};
use outside_core::{Gate, Shelf, VecShelf, VecSink, VecSource};
use std::alloc::Global;
use std::sync::Wait;
use std::test::Fail;
use std::thread::Threads;

/// How many bytes a transcript may have here.
const ROOM: usize = 4096;

/// How a run ended, and what it wrote.
#[derive(Drop)]
pub(crate) struct Ended {
    pub status: Status,
    pub sink: VecSink,
    pub shelf: VecShelf,
}

fn words_of(alloc: Global, words: &[&str]) -> Result<Vec<String>, Fail> {
    let mut all = Vec::new(alloc);
    for word in words {
        all.push(String::from_str(alloc, word)?)?;
    }
    Ok(all)
}

/// Runs a script over a shelf, with these words of the command line and a gate.
pub(crate) fn run_over<R: AllocGlobal + Threads + Wait + Sync, F: Shelf, G: Gate + Sync>(
    rt: &R,
    words: &[&str],
    script: &[u8],
    shelf: &mut F,
    gate: &G,
) -> Result<(Status, VecSink), Fail> {
    let alloc = rt.alloc();
    let words = words_of(alloc, words)?;
    let mut source = VecSource::new(Vec::from_slice(alloc, script)?, Vec::new(alloc));
    let mut sink = VecSink::new(alloc, ROOM, ROOM, Vec::new(alloc))?;
    let status = mged_main(rt, &words, &mut source, &mut sink, shelf, gate);
    Ok((status, sink))
}

/// Runs a script with these words of the command line and a gate, over a shelf with no files.
pub(crate) fn run_script<R: AllocGlobal + Threads + Wait + Sync, G: Gate + Sync>(
    rt: &R,
    words: &[&str],
    script: &[u8],
    gate: &G,
) -> Result<Ended, Fail> {
    let mut shelf = VecShelf::new(rt.alloc(), Vec::new(rt.alloc()), Vec::new(rt.alloc()));
    let (status, sink) = run_over(rt, words, script, &mut shelf, gate)?;
    Ok(Ended {
        status,
        sink,
        shelf,
    })
}
