//! Reads a case line by line.

use crate::case::{Case, CaseFile};
use case_text::{CaseFault, Shown, expand, expanded, first_word, number_of, words_of};
use name_core::Name;
use std::alloc::Global;

/// Where lines that begin with `|` and `+` go.
#[derive(Clone, Copy, PartialEq, Eq)]
enum Block {
    Nowhere,
    Script,
    Whole,
    Other,
    Front,
    End,
    Body,
    File,
    Put,
}

/// A case that is being read: its answers so far, and the last of them with its body.
#[derive(Drop)]
pub(crate) struct Reader {
    alloc: Global,
    case: Case,
    block: Block,
    answers: Shown,
    count: usize,
    is_talk: bool,
    head: Vec<u8>,
    body: Vec<u8>,
}

/// The name that a word is.
fn name_of(word: &[u8]) -> Result<Name, CaseFault> {
    match Name::read(word) {
        Ok(name) => Ok(name),
        Err(_) => Err(CaseFault::Line),
    }
}

/// How many line feeds a text has.
fn feeds_in(text: &[u8]) -> usize {
    let mut count = 0usize;
    for byte in text {
        if *byte == b'\n' {
            count = count.saturating_add(1);
        }
    }
    count
}

/// The text of a word.
fn string_of(alloc: Global, word: &[u8]) -> Result<String, CaseFault> {
    match String::from_utf8(expanded(alloc, word)?) {
        Ok(text) => Ok(text),
        Err(_) => Err(CaseFault::Line),
    }
}

/// The numbers of a line.
fn numbers_in(alloc: Global, text: &[u8]) -> Result<Vec<u64>, CaseFault> {
    let mut numbers = Vec::new(alloc);
    for word in words_of(alloc, text)? {
        numbers.push(number_of(word)? as u64)?;
    }
    Ok(numbers)
}

impl Reader {
    /// The reader of a case of this name.
    pub(crate) fn new(alloc: Global, name: &[u8]) -> Result<Reader, CaseFault> {
        Ok(Reader {
            alloc,
            case: Case::new(alloc, Vec::from_slice(alloc, name)?),
            block: Block::Nowhere,
            answers: Shown::new(alloc),
            count: 0,
            is_talk: false,
            head: Vec::new(alloc),
            body: Vec::new(alloc),
        })
    }

    /// Takes a line of the case.
    pub(crate) fn take(&mut self, line: &[u8]) -> Result<(), CaseFault> {
        match line {
            [] | [b'#', ..] => Ok(()),
            [b'|', b' ', text @ ..] | [b'|', text @ ..] => {
                self.push_text(text)?;
                self.push_text(b"\\n")
            }
            [b'+', b' ', text @ ..] => self.push_text(text),
            [b'>', b' ', text @ ..] | [b'>', text @ ..] => self.take_command(text),
            _ => self.take_words(line),
        }
    }

    /// Puts a text where texts go.
    fn push_text(&mut self, text: &[u8]) -> Result<(), CaseFault> {
        match self.block {
            Block::Script => expand(text, &mut self.case.script),
            Block::Whole => expand(text, &mut self.case.text.whole),
            Block::Other => push_last_text(&mut self.case.text.others, text),
            Block::Front => expand(text, &mut self.case.text.front),
            Block::End => expand(text, &mut self.case.text.end),
            Block::Body => expand(text, &mut self.body),
            Block::File => push_last(&mut self.case.files, text),
            Block::Put => push_last(&mut self.case.puts, text),
            Block::Nowhere => Err(CaseFault::Line),
        }
    }

    /// Takes a line of the script, whose answer comes next.
    fn take_command(&mut self, text: &[u8]) -> Result<(), CaseFault> {
        self.end_answer();
        self.is_talk = true;
        self.block = Block::Nowhere;
        expand(text, &mut self.case.script)?;
        self.case.script.push(b'\n')?;
        Ok(())
    }

    /// Takes the head of an answer, whose body comes next.
    fn take_answer(&mut self, line: &[u8], is_refused: bool) -> Result<(), CaseFault> {
        self.end_answer();
        self.is_talk = true;
        self.case.some_refused = self.case.some_refused || is_refused;
        expand(line, &mut self.head)?;
        self.block = Block::Body;
        Ok(())
    }

    /// Puts the last answer to those before it.
    fn end_answer(&mut self) {
        if self.head.is_empty() {
            return;
        }
        self.count = self.count.saturating_add(1);
        self.answers.put(b"1.");
        self.answers.put_number(self.count);
        self.answers.put_byte(b' ');
        self.answers.put(&self.head);
        if self.head[0] == b'o' {
            self.answers.put_byte(b' ');
            self.answers.put_number(feeds_in(&self.body));
        }
        self.answers.put_byte(b'\n');
        self.answers.put(&self.body);
        self.head.clear();
        self.body.clear();
    }

    /// Takes a line of words.
    fn take_words(&mut self, line: &[u8]) -> Result<(), CaseFault> {
        let (word, rest) = first_word(line);
        match str::from_utf8(word) {
            Ok("ok") => self.take_answer(line, false),
            Ok("refused") => self.take_refused(rest),
            Ok(word) => self.take_named(word, rest),
            Err(_) => Err(CaseFault::Line),
        }
    }

    /// Takes the head of an answer that refuses, of which what follows the reason is a remark.
    fn take_refused(&mut self, rest: &[u8]) -> Result<(), CaseFault> {
        let (version, why) = first_word(rest);
        let mut head = Shown::new(self.alloc);
        head.put(b"refused ");
        head.put(version);
        head.put_byte(b' ');
        head.put(why);
        self.take_answer(head.bytes()?, true)
    }

    /// Takes a line that says where texts go, or what goes into the call.
    fn take_named(&mut self, word: &str, rest: &[u8]) -> Result<(), CaseFault> {
        match word {
            "script" => self.open(Block::Script),
            "transcript" => {
                self.case.text.is_whole = true;
                self.open(Block::Whole);
            }
            "or" => return self.take_other(),
            "replayed" => self.case.is_replayed = true,
            "begins" => self.open(Block::Front),
            "ends" => self.open(Block::End),
            "file" => return self.take_file(rest),
            "put" => return self.take_put(rest),
            "words" => return self.take_arguments(rest),
            "line" => return expand(rest, &mut self.case.line),
            _ => return self.take_numbers(word, rest),
        }
        Ok(())
    }

    /// Lets the next texts go there.
    fn open(&mut self, block: Block) {
        self.end_answer();
        self.block = block;
    }

    /// Another whole transcript that may come.
    fn take_other(&mut self) -> Result<(), CaseFault> {
        self.case.text.others.push(Vec::new(self.alloc))?;
        self.open(Block::Other);
        Ok(())
    }

    /// A file that stands on the shelf before the call.
    fn take_file(&mut self, name: &[u8]) -> Result<(), CaseFault> {
        self.case.files.push(CaseFile {
            name: name_of(name)?,
            bytes: Vec::new(self.alloc),
            size: None,
        })?;
        self.open(Block::File);
        Ok(())
    }

    /// The next file that the call is to put, by its bytes or by their number.
    fn take_put(&mut self, text: &[u8]) -> Result<(), CaseFault> {
        let (name, size) = first_word(text);
        let size = if size.is_empty() {
            None
        } else {
            Some(number_of(size)?)
        };
        self.case.puts.push(CaseFile {
            name: name_of(name)?,
            bytes: Vec::new(self.alloc),
            size,
        })?;
        self.open(Block::Put);
        Ok(())
    }

    /// The words of the command line.
    fn take_arguments(&mut self, text: &[u8]) -> Result<(), CaseFault> {
        for word in words_of(self.alloc, text)? {
            self.case.words.push(string_of(self.alloc, word)?)?;
        }
        Ok(())
    }

    /// A line of the numbers of calls that fail, or of one number.
    fn take_numbers(&mut self, word: &str, rest: &[u8]) -> Result<(), CaseFault> {
        match word {
            "reads-fail" => self.case.failing_reads = numbers_in(self.alloc, rest)?,
            "writes-fail" => self.case.failing_writes = numbers_in(self.alloc, rest)?,
            "files-fail" => self.case.failing_files = numbers_in(self.alloc, rest)?,
            _ => return self.take_number(word, number_of(rest)?),
        }
        Ok(())
    }

    /// A line of one number.
    fn take_number(&mut self, word: &str, number: usize) -> Result<(), CaseFault> {
        match word {
            "status" => self.case.status = Some(number),
            "bytes" => self.case.text.size = Some(number),
            "held" => self.case.text.held = Some(number),
            "left" => self.case.left = Some(number),
            "room" => self.case.room = number,
            "step" => self.case.step = number,
            _ => return Err(CaseFault::Line),
        }
        Ok(())
    }

    /// The case that was read.
    pub(crate) fn end(mut self) -> Result<Case, CaseFault> {
        self.end_answer();
        if self.is_talk {
            self.push_talk()?;
        }
        let Reader {
            alloc: _,
            case,
            block: _,
            answers: _,
            count: _,
            is_talk: _,
            head: _,
            body: _,
        } = self;
        Ok(case)
    }

    /// Makes the transcript of the answers.
    fn push_talk(&mut self) -> Result<(), CaseFault> {
        let mut whole = Shown::new(self.alloc);
        whole.put(b"order");
        for _i in 0..self.count {
            whole.put(b" 1");
        }
        whole.put_byte(b'\n');
        whole.put_all(&self.answers);
        self.case.text.whole = Vec::from_slice(self.alloc, whole.bytes()?)?;
        self.case.text.is_whole = true;
        Ok(())
    }
}

/// Puts a text at the end of the last file.
fn push_last(files: &mut Vec<CaseFile>, text: &[u8]) -> Result<(), CaseFault> {
    match files.last_mut() {
        Some(file) => expand(text, &mut file.bytes),
        None => Err(CaseFault::Line),
    }
}

/// Puts a text at the end of the last of others.
fn push_last_text(others: &mut Vec<Vec<u8>>, text: &[u8]) -> Result<(), CaseFault> {
    match others.last_mut() {
        Some(other) => expand(text, other),
        None => Err(CaseFault::Line),
    }
}
