//! Reads the command of a line.
ghost use Rattle.std.specs.Prelude.{All, ◌≡◌, ◌<◌, ◌≤◌, ◌^◌, ◌++◌, [], Some, length, map, drop, find, not, IfOk, OnOk};
ghost use Rattle.std.specs.List.{slice_index_or};
ghost use Rattle.tcl_words.specs.Bytes as bytes;
ghost use Rattle.tcl_words.specs.TopWords.{AreTokensIn, IsWordOf};
ghost use Rattle.transcript.specs.Merge.{entry};
ghost use Rattle.word_values.specs.Atoms.{atoms_in};
ghost use Rattle.mged_words.specs.Commands as commands;
ghost use Rattle.mged_words.specs.Entries.{command_entry};
ghost use Rattle.mged_words.specs.Readable.{IsReadable};
ghost use Rattle.mged_words.specs.Readings.{IsRead};
ghost use Rattle.mged_words.specs.Scripts as scripts;

use crate::command::ScriptCommand;
use crate::edit::{
    kill_command, l_command, ls_command, mvall_command, rm_command, save_command, tree_command,
};
use crate::fault::LineFault;
use crate::keep::attr_command;
use crate::list::{g_command, r_command};
use crate::make::in_command;
use crate::place::place_command;
use crate::put::put_command;
use crate::setting::cattr_command;
use crate::shot::{nirt_command, nirtd_command};
use crate::title::title_command;
use crate::views::{FileShoot, LineShoot, filed_command, viewed_command};
use command_set::{Command, Refusal};
use item_list::Items;
use memory_core::Memory;
use std::alloc::Global;
use std::sync::Arc;
use tcl_words::{Token, Word, WordFault, atom_text, is_blank, is_word, read_words, top_words};
use word_values::word_atoms;

/// The command of a word and the atoms that follow it.
fn atom_command(alloc: Global, word: &[u8], atoms: &[&[u8]]) -> Result<Command, LineFault>
    requires { length atoms.now < 2 ^ 31 }
    ensures { IsRead result (commands.atom_command word.now (map (λ a. a.now) atoms.now)) }
{
    if is_word(word, b"in") {
        in_command(alloc, atoms)
    } else if is_word(word, b"nirt") {
        nirt_command(alloc, atoms)
    } else if is_word(word, b"nirtd") {
        nirtd_command(alloc, atoms)
    } else if is_word(word, b"rt") {
        filed_command(alloc, FileShoot::OfPixels, atoms)
    } else if is_word(word, b"rtcheck") {
        viewed_command(alloc, LineShoot::OfOverlaps, atoms)
    } else if is_word(word, b"rtarea") {
        viewed_command(alloc, LineShoot::OfAreas, atoms)
    } else if is_word(word, b"rtedge") {
        filed_command(alloc, FileShoot::OfEdges, atoms)
    } else if is_word(word, b"r") {
        r_command(alloc, atoms)
    } else if is_word(word, b"g") {
        g_command(alloc, atoms)
    } else if is_word(word, b"rm") {
        rm_command(alloc, atoms)
    } else if is_word(word, b"kill") {
        kill_command(alloc, atoms)
    } else if is_word(word, b"mvall") {
        mvall_command(atoms)
    } else if is_word(word, b"ls") {
        ls_command(atoms)
    } else if is_word(word, b"l") {
        l_command(alloc, atoms)
    } else if is_word(word, b"tree") {
        tree_command(alloc, atoms)
    } else if is_word(word, b"save") {
        save_command(atoms)
    } else {
        Err(LineFault::Refused(Refusal::Syntax))
    }
}

/// The command of a word and the words that follow it, where each has to be an atom.
fn plain_command(
    alloc: Global,
    line: &[u8],
    tokens: &[Token],
    words: &[Word],
    word: &[u8],
) -> Result<Command, LineFault>
    requires tokens { AreTokensIn (length line.now) tokens.now }
    requires words { All (IsWordOf tokens.now) words.now }
    requires few { length words.now < 2 ^ 31 }
    ensures { IsRead result (commands.with_atoms (commands.atom_command word.now) (atoms_in line.now tokens.now words.now)) }
{
    match word_atoms(alloc, line, tokens, words)? {
        Some(atoms) => atom_command(alloc, word, &atoms),
        None => Err(LineFault::Refused(Refusal::Syntax)),
    }
}

/// The command of words of which the first is this name.
fn named_command(
    alloc: Global,
    line: &[u8],
    tokens: &[Token],
    words: &[Word],
    name: &[u8],
) -> Result<Command, LineFault>
    requires short { length line.now < 2 ^ 31 }
    requires tokens { AreTokensIn (length line.now) tokens.now }
    requires words { All (IsWordOf tokens.now) words.now }
    requires some { 0 < length words.now }
    requires few { length words.now ≤ 2 ^ 31 }
    ensures { (word : Word) → IsRead result (commands.named_command line.now tokens.now (slice_index_or words.now 0 word) (drop 1 words.now) name.now) }
{
    let rest = &words[1..];
    if is_word(name, b"place") {
        place_command(alloc, line, tokens, rest)
    } else if is_word(name, b"cattr") {
        cattr_command(alloc, line, tokens, rest)
    } else if is_word(name, b"put") {
        put_command(alloc, line, tokens, words)
    } else if is_word(name, b"attr") {
        attr_command(alloc, line, tokens, rest)
    } else if is_word(name, b"title") {
        title_command(alloc, line, tokens, rest)
    } else {
        plain_command(alloc, line, tokens, rest, name)
    }
}

/// The command of the words of a line.
fn words_command(
    alloc: Global,
    line: &[u8],
    tokens: &[Token],
    words: &[Word],
) -> Result<Command, LineFault>
    requires short { length line.now < 2 ^ 31 }
    requires tokens { AreTokensIn (length line.now) tokens.now }
    requires words { All (IsWordOf tokens.now) words.now }
    requires few { length words.now ≤ 2 ^ 31 }
    ensures { IsRead result (commands.command_of_words line.now tokens.now words.now) }
{
    match words {
        [] => Err(LineFault::Refused(Refusal::Syntax)),
        [first, ..] => match atom_text(line, tokens, *first) {
            Some(name) => named_command(alloc, line, tokens, words, name),
            None => Err(LineFault::Refused(Refusal::Syntax)),
        },
    }
}

fn line_command(alloc: Global, line: &[u8]) -> Result<Command, LineFault>
    requires { length line.now < 2 ^ 31 }
    ensures { IsRead result (commands.command_of line.now) }
{
    match read_words(alloc, line) {
        Ok(read) => {
            let words = top_words(alloc, read.tokens())?;
            words_command(alloc, line, read.tokens(), &words)
        }
        Err(WordFault::Memory) => Err(LineFault::Memory),
        Err(_) => Err(LineFault::Refused(Refusal::Syntax)),
    }
}

/// Reads the command of a line: one that isn't in the grammar is `Bad`, with the first refusal that holds.
pub fn read_line(alloc: Global, line: &[u8]) -> Result<Command, Memory>
    requires { length line.now < 2 ^ 31 }
    ensures { IfOk result (λ command. command ≡ commands.command_of line.now) }
{
    match line_command(alloc, line) {
        Ok(command) => Ok(command),
        Err(LineFault::Refused(refusal)) => Ok(Command::Bad(refusal)),
        Err(LineFault::Memory) => Err(Memory),
    }
}

fn first_byte(line: &[u8]) -> Option<u8>
    ensures { result ≡ find (λ byte. not (bytes.is_blank byte)) line.now }
{
    line.iter().copied().find(|byte| !is_blank(*byte))
}

fn is_no_command(line: &[u8]) -> bool
    ensures { result ≡ scripts.is_no_command line.now }
{
    match first_byte(line) {
        None => true,
        Some(byte) => byte == b'#',
    }
}

/// The command of what follows the session of a line.
fn command_line(
    alloc: Global,
    session: u8,
    number: u32,
    rest: &[u8],
) -> Result<ScriptCommand, Memory>
    requires { length rest.now < 2 ^ 31 }
    ensures entry { IfOk result (λ made. command_entry made ≡ entry session (commands.command_of rest.now)) }
    ensures line { IfOk result (λ made. made.line ≡ number) }
{
    let command = read_line(alloc, rest)?;
    Ok(ScriptCommand {
        session,
        line: number,
        command: Arc::new(alloc, command)?,
    })
}

/// Puts the command of the line of a number at the end, where the line is one. `rest` is what follows its session.
pub fn push_command(
    alloc: Global,
    commands: &mut Items<ScriptCommand>,
    session: u8,
    number: u32,
    rest: &[u8],
) -> Result<(), Memory>
    requires { length rest.now < 2 ^ 31 }
    ensures pushed { OnOk result (map command_entry commands.new ≡ map command_entry commands.old ++ scripts.commands_with (Some (session, rest.now)) []) }
    ensures lines { OnOk result (map (λ (c : ScriptCommand). c.line) commands.new ≡ map (λ (c : ScriptCommand). c.line) commands.old ++ scripts.numbers_with (Some (session, rest.now)) number []) }
    ensures readable { OnOk result (All IsReadable (map command_entry commands.old) → All IsReadable (map command_entry commands.new)) }
{
    if is_no_command(rest) {
        return Ok(());
    }
    commands.push(command_line(alloc, session, number, rest)?)?;
    Ok(())
}
