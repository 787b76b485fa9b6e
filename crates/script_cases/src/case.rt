//! A case: what goes into a call of the program, and what it is to leave.

use case_text::CaseFault;
use name_core::Name;
use std::alloc::Global;

/// The room of a sink where a case names none.
const ROOM: usize = 134_217_728;

/// A file, or how many bytes it is to have where `size` is told.
#[derive(Drop)]
pub(crate) struct CaseFile {
    pub name: Name,
    pub bytes: Vec<u8>,
    pub size: Option<usize>,
}

/// What a transcript is to be: nothing, the whole of it, or what it begins and ends with.
#[derive(Drop)]
pub(crate) struct WantedText {
    pub is_whole: bool,
    pub whole: Vec<u8>,
    /// Other wholes that may come as well.
    pub others: Vec<Vec<u8>>,
    pub front: Vec<u8>,
    pub end: Vec<u8>,
    pub size: Option<usize>,
    /// How many first bytes of the whole are written.
    pub held: Option<usize>,
}

/// A case as it is read from a file.
#[derive(Drop)]
pub(crate) struct Case {
    pub name: Vec<u8>,
    pub words: Vec<String>,
    pub script: Vec<u8>,
    pub files: Vec<CaseFile>,
    pub failing_reads: Vec<u64>,
    pub failing_writes: Vec<u64>,
    pub failing_files: Vec<u64>,
    pub room: usize,
    pub step: usize,
    pub text: WantedText,
    pub status: Option<usize>,
    pub some_refused: bool,
    pub line: Vec<u8>,
    pub left: Option<usize>,
    pub puts: Vec<CaseFile>,
    /// Whether what comes is to come again where it is replayed.
    pub is_replayed: bool,
}

impl WantedText {
    fn new(alloc: Global) -> WantedText {
        WantedText {
            is_whole: false,
            whole: Vec::new(alloc),
            others: Vec::new(alloc),
            front: Vec::new(alloc),
            end: Vec::new(alloc),
            size: None,
            held: None,
        }
    }
}

impl Case {
    pub(crate) fn new(alloc: Global, name: Vec<u8>) -> Case {
        Case {
            name,
            words: Vec::new(alloc),
            script: Vec::new(alloc),
            files: Vec::new(alloc),
            failing_reads: Vec::new(alloc),
            failing_writes: Vec::new(alloc),
            failing_files: Vec::new(alloc),
            room: ROOM,
            step: ROOM,
            text: WantedText::new(alloc),
            status: None,
            some_refused: false,
            line: Vec::new(alloc),
            left: None,
            puts: Vec::new(alloc),
            is_replayed: false,
        }
    }

    /// The number of the status that is wanted, beside the one that came. Where none is told it is 1 where a command is
    /// refused, and else 0; but where the order of the commands is free, which decides on refusals, it may be either.
    pub(crate) fn wanted_status(&self, came: usize) -> usize {
        match self.status {
            Some(status) => status,
            None if self.is_replayed => came.min(1),
            None => usize::from(self.some_refused),
        }
    }

    /// Whether its words name a file that has an order.
    pub(crate) fn has_order(&self) -> bool {
        self.words
            .iter()
            .any(|word| word.as_bytes().starts_with(b"--replay"))
    }

    /// The words of the case, and behind them those that ask for an order of this file.
    pub(crate) fn replay_words(&self, alloc: Global, file: &str) -> Result<Vec<String>, CaseFault> {
        let mut words = Vec::new(alloc);
        for word in &self.words {
            words.push(String::from_str(alloc, word.as_str())?)?;
        }
        words.push(String::from_str(alloc, "--replay")?)?;
        words.push(String::from_str(alloc, file)?)?;
        Ok(words)
    }
}
