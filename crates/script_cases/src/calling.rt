//! Calls of the program with what a case gives.

use crate::case::{Case, CaseFile};
use case_text::CaseFault;
use item_list::Items;
use mged_top::{Status, mged_main, replay_mged};
use name_core::Name;
use outside_core::{File, OpenGate, VecShelf, VecSink, VecSource};
use std::alloc::Global;
use std::sync::Wait;
use std::thread::Threads;

/// The name of a file that has the transcript of a run before.
pub(crate) const ORDER_FILE: &str = "transcript";

/// The files of a shelf: those of a case, and behind them the transcript of a run before, where there is one.
fn shelf_files(
    alloc: Global,
    files: &[CaseFile],
    before: Option<&[u8]>,
) -> Result<Vec<File>, CaseFault> {
    let mut given = Vec::new(alloc);
    for file in files {
        given.push(File {
            name: file.name,
            bytes: Items::of_vec(Vec::from_slice(alloc, &file.bytes)?),
        })?;
    }
    if let Some(text) = before {
        let Ok(name) = Name::read(ORDER_FILE.as_bytes()) else {
            return Err(CaseFault::Line);
        };
        given.push(File {
            name,
            bytes: Items::of_vec(Vec::from_slice(alloc, text)?),
        })?;
    }
    Ok(given)
}

/// What a call reads and writes.
#[derive(Drop)]
pub(crate) struct Outside {
    pub source: VecSource,
    pub sink: VecSink,
    pub shelf: VecShelf,
}

/// What the call of a case reads and writes.
fn outside_of(alloc: Global, case: &Case, before: Option<&[u8]>) -> Result<Outside, CaseFault> {
    if case.step == 0 {
        return Err(CaseFault::Number);
    }
    let failing_reads = Vec::from_slice(alloc, &case.failing_reads)?;
    let failing_writes = Vec::from_slice(alloc, &case.failing_writes)?;
    let failing_files = Vec::from_slice(alloc, &case.failing_files)?;
    let script = Vec::from_slice(alloc, &case.script)?;
    let files = shelf_files(alloc, &case.files, before)?;
    let sink = VecSink::new(alloc, case.room, case.step, failing_writes)?;
    Ok(Outside {
        source: VecSource::new(script, failing_reads),
        sink,
        shelf: VecShelf::new(alloc, files, failing_files),
    })
}

/// Which call of the program is made.
#[derive(Clone, Copy)]
pub(crate) enum Way {
    /// The call that is the program.
    Program,
    /// The call that runs the order of a file, on this thread alone.
    Replay,
}

impl Way {
    /// The head over what differs where a case is run once more.
    pub(crate) fn head(self) -> &'static [u8] {
        match self {
            Way::Program => b"  replayed by mged_main\n",
            Way::Replay => b"  by replay_mged\n",
        }
    }
}

/// How a call ended, and what it left.
#[derive(Drop)]
pub(crate) struct Ended {
    pub status: Status,
    pub outside: Outside,
}

/// Makes a call of a case with these words.
pub(crate) fn call<R: AllocGlobal + Threads + Wait + Sync>(
    rt: &R,
    way: Way,
    case: &Case,
    words: &Vec<String>,
    before: Option<&[u8]>,
) -> Result<Ended, CaseFault> {
    let alloc = rt.alloc();
    let mut outside = outside_of(alloc, case, before)?;
    let Outside {
        source,
        sink,
        shelf,
    } = &mut outside;
    let status = match way {
        Way::Program => mged_main(rt, words, source, sink, shelf, &OpenGate),
        Way::Replay => replay_mged::<R, VecSource, VecSink, VecShelf>(
            alloc, words, source, sink, shelf,
        ),
    };
    Ok(Ended { status, outside })
}
