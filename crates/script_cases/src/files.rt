//! Runs the cases of files.

use crate::case::Case;
use crate::reader::Reader;
use crate::running::run_case;
use case_text::{CaseFault, Lines, Shown, Tallies};
use std::alloc::Global;
use std::sync::Wait;
use std::thread::Threads;
use std::{env, fs};

/// The name of the case that begins with a line.
fn case_name(line: &[u8]) -> Option<&[u8]> {
    match line {
        [b'c', b'a', b's', b'e', b' ', name @ ..] => Some(name),
        _ => None,
    }
}

/// The reader of a case of this name, which begins with these lines.
fn begin_case(alloc: Global, name: &[u8], setup: &[&[u8]]) -> Result<Reader, CaseFault> {
    let mut reader = Reader::new(alloc, name)?;
    for line in setup {
        reader.take(line)?;
    }
    Ok(reader)
}

/// What stands at the beginning of each case, and the case that is being read.
#[derive(Drop)]
struct Place<'a> {
    setup: Vec<&'a [u8]>,
    open: Option<Reader>,
}

/// Runs cases on a machine, and keeps how many there were and what is to be printed of them.
#[derive(Drop)]
pub(crate) struct Runner<'r, R> {
    rt: &'r R,
    tallies: Tallies,
    report: Shown,
}

impl<'r, R: AllocGlobal + Threads + Wait + Sync> Runner<'r, R> {
    /// The runner of no cases so far.
    pub(crate) fn new(rt: &'r R) -> Runner<'r, R> {
        Runner {
            rt,
            tallies: Tallies::none(),
            report: Shown::new(rt.alloc()),
        }
    }

    /// What is printed.
    pub(crate) fn report(&self) -> &Shown {
        &self.report
    }

    /// Runs a case, counts it, and puts in its name and what differs.
    fn try_case(&mut self, case: &Case) -> Result<(), CaseFault> {
        let differences = run_case(self.rt, case)?;
        self.tallies.count(differences.is_empty());
        if !differences.is_empty() {
            self.report.put(b"case ");
            self.report.put(&case.name);
            self.report.put_byte(b'\n');
            self.report.put_all(&differences);
        }
        Ok(())
    }

    /// Ends the case that was read, if there is one, and runs it.
    fn end_case(&mut self, open: Option<Reader>) -> Result<(), CaseFault> {
        match open {
            Some(reader) => {
                let case = reader.end()?;
                self.try_case(&case)
            }
            None => Ok(()),
        }
    }

    /// Takes a line of a file of cases. A line `setup` has behind it what each case begins with, up to the next such line.
    fn take_line<'a>(&mut self, place: &mut Place<'a>, line: &'a [u8]) -> Result<(), CaseFault> {
        if let Some(name) = case_name(line) {
            let next = begin_case(self.rt.alloc(), name, &place.setup)?;
            let last = place.open.replace(next);
            return self.end_case(last);
        }
        if line == b"setup".as_slice() {
            place.setup.clear();
            let last = place.open.take();
            return self.end_case(last);
        }
        match &mut place.open {
            Some(reader) => reader.take(line),
            None => {
                place.setup.push(line)?;
                Ok(())
            }
        }
    }

    /// Runs the cases of a file.
    fn run_text(&mut self, text: &[u8]) -> Result<(), CaseFault> {
        let mut place = Place {
            setup: Vec::new(self.rt.alloc()),
            open: None,
        };
        for line in Lines::of(text) {
            self.take_line(&mut place, line)?;
        }
        let last = place.open.take();
        self.end_case(last)
    }

    /// Runs the file that a word names, or notes that what follows is to differ.
    fn run_word(&mut self, host: &HostRuntime, word: &str) -> Result<(), CaseFault> {
        if word == "--wrong" {
            self.tallies.turn_wrong();
            return Ok(());
        }
        let text = fs::read(host, word)?;
        self.run_text(&text)
    }

    /// Runs the files that the words of the program name.
    pub(crate) fn run_files(&mut self, host: &HostRuntime) -> Result<Tallies, CaseFault> {
        for word in env::args(host)?.skip(1) {
            self.run_word(host, word.as_str())?;
        }
        self.tallies.tell(b"cases", &mut self.report);
        Ok(self.tallies)
    }
}
