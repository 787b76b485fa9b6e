//! Runs cases of scripts: each has what goes into a call of the program, and what the call is to leave. docs/CASES.md
//! says how a case is written.
#![tactic(auto)]

mod calling;
mod case;
mod compare;
mod files;
mod reader;
mod running;

use case_text::finish;
use files::Runner;
use std::process::ExitCode;

/// Runs the files of cases that the words of the program name, and prints each case that differs and how many there
/// were. What stands behind the word `--wrong` are files of cases of which each is to differ. The status is 0 where
/// all is so, 1 where it isn't, and 2 where a file can't be read.
fn main(rt: HostRuntime) -> ExitCode {
    let mut runner = Runner::new(&rt);
    let outcome = runner.run_files(&rt);
    finish(&rt, outcome, runner.report())
}
