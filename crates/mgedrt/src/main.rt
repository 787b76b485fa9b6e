//! The program: reads the script on standard input and files of the working folder, or makes a demo of a number, writes the
//! transcript to standard output and the files to the working folder, and ends with the number of its status. A status that
//! has a line prints it on standard error.
#![tactic(auto)]

mod program;

use outside_core::{FolderShelf, InSource, OpenGate, OutSink};
use program::{WordsFault, run_program};
use std::alloc::AllocError;
use std::env;
use std::process::ExitCode;
use std::rt::Runtime;

/// The words after the program's name.
fn words_given(rt: &HostRuntime) -> Result<Vec<String>, WordsFault> {
    let mut words = Vec::new(rt.alloc());
    for word in env::args(rt)?.skip(1) {
        words.push(word).map_err(AllocError::from)?;
    }
    Ok(words)
}

fn main(rt: HostRuntime) -> ExitCode {
    let words = words_given(&rt);
    let mut source = InSource::new(rt.stdin());
    let mut sink = OutSink::new(rt.stdout());
    let mut shelf = FolderShelf::new(&rt);
    let mut error = OutSink::new(rt.stderr());
    let number = run_program(
        &rt,
        &words,
        &mut source,
        &mut sink,
        &mut shelf,
        &OpenGate,
        &mut error,
    );
    ExitCode::from(number)
}
