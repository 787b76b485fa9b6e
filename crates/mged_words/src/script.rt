//! Reads a script.
ghost use Rattle.std.specs.Prelude.{◌≡◌, ◌<◌, ◌≤◌, ◌∷◌, ◌==◌, ◌^◌, All, length, map, position, Some, None, IfOk, IfErr};
ghost use Rattle.transcript.specs.Lines.{lines_in};
ghost use Rattle.mged_words.specs.Entries.{HasSession, command_entry};
ghost use Rattle.mged_words.specs.Readable.{IsReadable};
ghost use Rattle.mged_words.specs.Readings.{IsScript};
ghost use Rattle.mged_words.specs.Scripts as scripts;

use crate::command::ScriptCommand;
use crate::line::push_command;
use crate::session::session_and_rest;
use item_list::Items;
use memory_core::Memory;
use std::alloc::Global;

/// The most bytes that a script may have.
pub const SCRIPT_SIZE: usize = 4_194_304;

/// The most lines that a script may have.
pub const LINE_COUNT: u32 = 65_536;

/// The most bytes that a line may have.
pub const LINE_SIZE: usize = 65_536;

/// Why a script is refused. The first that holds is answered.
#[derive(Clone, Copy, Debug, PartialEq, Eq)]
pub enum ScriptFlaw {
    /// It has over 4,194,304 bytes.
    Size,
    /// The line of this number, which is 65,537, counted from 1, is one too many.
    Lines(u32),
    /// The line of this number has over 65,536 bytes.
    LongLine(u32),
    /// The line of this number begins with `@`, and names no session.
    Session(u32),
}

/// Why there are no commands of a script.
#[derive(Clone, Copy, Debug, PartialEq, Eq)]
pub enum ScriptFault {
    At(ScriptFlaw),
    /// There was no memory.
    Memory,
}

impl From<ScriptFlaw> for ScriptFault {
    ghost use Rattle.std.specs.Prelude.{◌≡◌};
    ghost use Rattle.mged_words.specs.declared.script.ScriptFault.TheVariants.{At};

    ghost from_gives = { λ flaw e. e ≡ At flaw };

    fn from(flaw: ScriptFlaw) -> ScriptFault {
        ScriptFault::At(flaw)
    }
}

impl From<Memory> for ScriptFault {
    ghost use Rattle.std.specs.Prelude.{◌≡◌};
    ghost use Rattle.mged_words.specs.declared.script.ScriptFault.TheVariants.{Memory};

    ghost from_gives = { λ _ e. e ≡ Memory };

    fn from(_error: Memory) -> ScriptFault {
        ScriptFault::Memory
    }
}

/// The place of the first line feed.
fn line_end(text: &[u8]) -> Option<usize>
    ensures { result ≡ position (λ byte. byte == 10) text.now }
{
    text.iter().position(|byte| *byte == b'\n')
}

/// The first line of a text that isn't empty, and what follows it.
fn cut_line(text: &[u8]) -> (&[u8], &[u8])
    requires { 0 < length text.now }
    ensures lines { lines_in text.now ≡ result.0.now ∷ lines_in result.1.now }
    ensures shorter { length result.1.now < length text.now }
    ensures line { length result.0.now ≤ length text.now }
{
    match line_end(text) {
        Some(end) => (&text[..end], &text[end + 1..]),
        None => (text, &text[text.len()..]),
    }
}

/// The session of the line of a number, and what follows it, or what is wrong with the line.
fn session_line(number: u32, line: &[u8]) -> Result<(u8, &[u8]), ScriptFlaw>
    ensures found { IfOk result (λ found. scripts.session_and_rest line.now ≡ Some (found.0, found.1.now)) }
    ensures fine { IfOk result (λ _. scripts.line_flaw number line.now ≡ None) }
    ensures flaw { IfErr result (λ flaw. scripts.line_flaw number line.now ≡ Some flaw) }
    ensures session { IfOk result (λ found. (1 ≤ found.0) × (found.0 ≤ 8)) }
    ensures shorter { IfOk result (λ found. length found.1.now ≤ length line.now) }
    ensures few { IfOk result (λ _. number ≤ 65536) }
{
    if number > LINE_COUNT {
        return Err(ScriptFlaw::Lines(number));
    }
    if line.len() > LINE_SIZE {
        return Err(ScriptFlaw::LongLine(number));
    }
    match session_and_rest(line) {
        Some(found) => Ok(found),
        None => Err(ScriptFlaw::Session(number)),
    }
}

/// Reads the commands of a script, or the first of its faults.
pub fn read_script(alloc: Global, text: &[u8]) -> Result<Items<ScriptCommand>, ScriptFault>
    requires { length text.now < 2 ^ 31 }
    ensures exact { IsScript result text.now }
    ensures lines { IfOk result (λ commands. map (λ (c : ScriptCommand). c.line) commands ≡ scripts.line_numbers text.now) }
    ensures sessions { IfOk result (λ commands. All HasSession (map command_entry commands)) }
    ensures readable { IfOk result (λ commands. All IsReadable (map command_entry commands)) }
    ensures few { IfOk result (λ commands. length commands ≤ 65536) }
{
    if text.len() > SCRIPT_SIZE {
        return Err(ScriptFault::At(ScriptFlaw::Size));
    }
    let mut commands = Items::new(alloc);
    let mut rest = text;
    let mut number = 0;
    while !rest.is_empty() {
        let (line, after) = cut_line(rest);
        number += 1;
        let (session, behind) = session_line(number, line)?;
        push_command(alloc, &mut commands, session, number, behind)?;
        rest = after;
    }
    Ok(commands)
}
