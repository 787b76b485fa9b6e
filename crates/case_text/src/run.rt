//! Running the rows of files through the calls that they ask of.

use crate::fault::CaseFault;
use crate::line::Lines;
use crate::row::{Row, is_remark, row_of};
use crate::shown::Shown;
use std::alloc::Global;
use std::io::Write;
use std::process::ExitCode;
use std::{env, fs};

/// What the rows of a program's tables may ask.
pub trait Tables {
    /// Puts in what a row's call answers, as the row is to want it.
    fn answer(
        &self,
        alloc: Global,
        kind: &str,
        given: &[u8],
        out: &mut Shown,
    ) -> Result<(), CaseFault>;
}

/// How many rows there were, and how many of these differ.
#[derive(Clone, Copy, Drop)]
pub struct Tally {
    rows: u64,
    differ: u64,
}

impl Tally {
    /// Of no rows.
    pub fn none() -> Tally {
        Tally { rows: 0, differ: 0 }
    }

    /// Counts a row, which is as wanted or not.
    pub fn count(&mut self, is_alike: bool) {
        self.rows = self.rows.saturating_add(1);
        if !is_alike {
            self.differ = self.differ.saturating_add(1);
        }
    }
}

/// The counts of rows that are right, and of those behind `--wrong`.
#[derive(Clone, Copy, Drop)]
pub struct Tallies {
    right: Tally,
    wrong: Tally,
    is_wrong: bool,
}

impl Tallies {
    /// Of no rows.
    pub fn none() -> Tallies {
        Tallies {
            right: Tally::none(),
            wrong: Tally::none(),
            is_wrong: false,
        }
    }

    /// What follows is to differ.
    pub fn turn_wrong(&mut self) {
        self.is_wrong = true;
    }

    /// Counts a row, which is as wanted or not.
    pub fn count(&mut self, is_alike: bool) {
        if self.is_wrong {
            self.wrong.count(is_alike);
        } else {
            self.right.count(is_alike);
        }
    }

    /// Puts in how many rows there were and how many of them differ, and how many wrong ones were noticed.
    pub fn tell(&self, what: &[u8], report: &mut Shown) {
        report.put_number(self.right.rows);
        report.put_byte(b' ');
        report.put(what);
        report.put(b", ");
        report.put_number(self.right.differ);
        report.put(b" differ\n");
        report.put_number(self.wrong.rows);
        report.put(b" wrong ");
        report.put(what);
        report.put(b", ");
        report.put_number(self.wrong.differ);
        report.put(b" noticed\n");
    }

    /// Whether all is as it is to be: there are rows, none of them differs, and each wrong one does.
    pub fn is_well(&self) -> bool {
        self.right.rows > 0 && self.right.differ == 0 && self.wrong.differ == self.wrong.rows
    }
}

/// Puts in a row that differs, with what was wanted and what came.
fn put_difference(row: &Row<'_>, came: &[u8], report: &mut Shown) {
    report.put_printed(row.kind);
    report.put_byte(b' ');
    report.put_printed(&row.given);
    report.put(b"\n  wanted: ");
    report.put_printed(&row.wanted);
    report.put(b"\n  came:   ");
    report.put_printed(came);
    report.put_byte(b'\n');
}

/// Asks a row's call.
fn ask<T: Tables>(
    alloc: Global,
    tables: &T,
    row: &Row<'_>,
    came: &mut Shown,
) -> Result<(), CaseFault> {
    match str::from_utf8(row.kind) {
        Ok(kind) => tables.answer(alloc, kind, &row.given, came),
        Err(_) => Err(CaseFault::Kind),
    }
}

/// What a row's call answers, or `fault` and why it could not be asked.
fn answer_of<T: Tables>(alloc: Global, tables: &T, row: &Row<'_>) -> Shown {
    let mut came = Shown::new(alloc);
    if let Err(fault) = ask(alloc, tables, row, &mut came) {
        came = Shown::new(alloc);
        came.put(b"fault: ");
        came.put(fault.text().as_bytes());
    }
    came
}

/// Runs the row of a line.
fn run_row<T: Tables>(
    alloc: Global,
    tables: &T,
    line: &[u8],
    tallies: &mut Tallies,
    report: &mut Shown,
) -> Result<(), CaseFault> {
    let row = row_of(alloc, line)?;
    let answer = answer_of(alloc, tables, &row);
    let came = answer.bytes()?;
    let is_alike = came == row.wanted.as_slice();
    tallies.count(is_alike);
    if !is_alike {
        put_difference(&row, came, report);
    }
    Ok(())
}

/// Runs the rows of a file.
fn run_text<T: Tables>(
    alloc: Global,
    tables: &T,
    text: &[u8],
    tallies: &mut Tallies,
    report: &mut Shown,
) -> Result<(), CaseFault> {
    for line in Lines::of(text) {
        if !is_remark(line) {
            run_row(alloc, tables, line, tallies, report)?;
        }
    }
    Ok(())
}

/// Runs the file that a word names, or notes that what follows is to differ.
fn run_word<T: Tables>(
    rt: &HostRuntime,
    tables: &T,
    word: &str,
    tallies: &mut Tallies,
    report: &mut Shown,
) -> Result<(), CaseFault> {
    if word == "--wrong" {
        tallies.turn_wrong();
        return Ok(());
    }
    let text = fs::read(rt, word)?;
    run_text(rt.alloc(), tables, &text, tallies, report)
}

/// Runs the files that the words name.
fn run_files<T: Tables>(
    rt: &HostRuntime,
    tables: &T,
    report: &mut Shown,
) -> Result<Tallies, CaseFault> {
    let mut tallies = Tallies::none();
    for word in env::args(rt)?.skip(1) {
        run_word(rt, tables, word.as_str(), &mut tallies, report)?;
    }
    tallies.tell(b"rows", report);
    Ok(tallies)
}

/// Prints a report of cases, and answers the status of the program: 0 where all is as it is to be, 1 where it isn't, and 2
/// where a file can't be read.
pub fn finish(rt: &HostRuntime, outcome: Result<Tallies, CaseFault>, report: &Shown) -> ExitCode {
    let is_told = match report.bytes() {
        Ok(text) => rt.stdout().write_all(text).is_ok(),
        Err(_) => false,
    };
    match outcome {
        Ok(tallies) => ExitCode::from(u8::from(!(tallies.is_well() && is_told))),
        Err(fault) => {
            let _ = eprintln!(rt; "{}", fault.text());
            ExitCode::from(2)
        }
    }
}

/// Runs the files of rows that the words of the program name, and prints each row that differs and how many there
/// were. What stands behind the word `--wrong` are files of rows of which each is to differ. The status is 0 where all
/// is so, 1 where it isn't, and 2 where a file can't be read.
pub fn run_tables<T: Tables>(rt: &HostRuntime, tables: &T) -> ExitCode {
    let mut report = Shown::new(rt.alloc());
    let outcome = run_files(rt, tables, &mut report);
    finish(rt, outcome, &report)
}
