//! Rows of lines and scripts: which commands they have.

mod shown;

use case_text::{CaseFault, Shown};
use command_set::Command;
use mged_words::{ScriptFault, ScriptFlaw, read_line, read_script};
use shown::{put_command, put_outline};
use std::alloc::Global;

/// The command of a line, which is short.
fn read(alloc: Global, line: &[u8]) -> Result<Command, CaseFault> {
    if line.len() > 1_000_000 {
        return Err(CaseFault::Number);
    }
    Ok(read_line(alloc, line)?)
}

/// `line LINE => COMMAND`, with all that it holds.
pub fn answer_line(alloc: Global, line: &[u8], out: &mut Shown) -> Result<(), CaseFault> {
    let command = read(alloc, line)?;
    put_command(alloc, &command, out)
}

/// `outline LINE => KIND COUNT`
pub fn answer_outline(alloc: Global, line: &[u8], out: &mut Shown) -> Result<(), CaseFault> {
    let command = read(alloc, line)?;
    put_outline(&command, out);
    Ok(())
}

/// Puts in the fault of a line.
fn put_at(line: u32, what: &[u8], out: &mut Shown) {
    out.put(b"line ");
    out.put_number(line);
    out.put(what);
}

/// Puts in the fault of a script.
fn put_flaw(flaw: ScriptFlaw, out: &mut Shown) {
    match flaw {
        ScriptFlaw::Size => out.put(b"size"),
        ScriptFlaw::Lines(line) => put_at(line, b" lines", out),
        ScriptFlaw::LongLine(line) => put_at(line, b" long", out),
        ScriptFlaw::Session(line) => put_at(line, b" session", out),
    }
}

/// `script TEXT => SESSION:COMMAND;..`, its commands, or its fault
pub fn answer_script(alloc: Global, text: &[u8], out: &mut Shown) -> Result<(), CaseFault> {
    if text.len() > 10_000_000 {
        return Err(CaseFault::Number);
    }
    let commands = match read_script(alloc, text) {
        Ok(commands) => commands,
        Err(ScriptFault::At(flaw)) => {
            put_flaw(flaw, out);
            return Ok(());
        }
        Err(ScriptFault::Memory) => return Err(CaseFault::Memory),
    };
    for entry in commands.items() {
        out.put_number(entry.session);
        out.put_byte(b':');
        put_command(alloc, &entry.command, out)?;
        out.put_byte(b';');
    }
    Ok(())
}
