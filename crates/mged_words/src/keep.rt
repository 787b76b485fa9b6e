//! Reads the command that keeps attributes of an object.
ghost use Rattle.std.specs.Prelude.{All, ◌≡◌, ◌<◌, ◌^◌, length, Err, Ok};
ghost use Rattle.std.specs.Option.{option_copied};
ghost use Rattle.tcl_words.specs.TopWords.{AreTokensIn, IsWordOf};
ghost use Rattle.command_set.specs.Lawful.{AreTexts};
ghost use Rattle.put_form.specs.Keeps.{kept_of};
ghost use Rattle.put_form.specs.Pairs.{pairs_of};
ghost use Rattle.mged_words.specs.Commands as commands;
ghost use Rattle.mged_words.specs.Readings.{IsRead};

use crate::fault::LineFault;
use crate::names::read_name;
use command_set::{Command, Edit, KeptPairs, Refusal};
use object_set::KeptAttrs;
use put_form::{PutFault, read_keep};
use std::alloc::Global;
use tcl_words::{Token, Word, atom_text, is_word};

/// The list of attributes whose values are texts.
fn list_of(kept: KeptAttrs) -> KeptPairs
    requires short { length kept < 2 ^ 31 }
    requires texts { AreTexts kept }
    ensures { result ≡ kept }
{
    match KeptPairs::of_vec(kept.into_vec()) {
        Some(pairs) => pairs,
        None => unreachable!(),
    }
}

/// The command that keeps the attributes that were read.
fn read_command(name: &[u8], kept: KeptAttrs) -> Result<Command, LineFault>
    requires short { length kept < 2 ^ 31 }
    requires texts { AreTexts kept }
    ensures { IsRead result (commands.kept_command name.now (Ok kept)) }
{
    let name = read_name(name, 3)?;
    Ok(Command::Edit(Edit::Keep {
        name,
        pairs: list_of(kept),
    }))
}

/// Why there is no command, where keys and values have a fault. One of their form comes before the object's name, and
/// that before the names of the keys.
fn refused(name: &[u8], fault: PutFault) -> LineFault
    ensures refusal { IsRead (Err result) (commands.kept_command name.now (Err fault)) }
    ensures memory { fault ≡ PutFault.Memory → result ≡ LineFault.Memory }
{
    if matches!(fault, PutFault::Attr | PutFault::Memory) {
        return LineFault::from(fault);
    }
    match read_name(name, 3) {
        Ok(_) => LineFault::from(fault),
        Err(refusal) => LineFault::Refused(refusal),
    }
}

/// Reads `attr set NAME KEY VALUE ..`, with the name.
fn keep_command(
    alloc: Global,
    line: &[u8],
    tokens: &[Token],
    words: &[Word],
    name: &[u8],
) -> Result<Command, LineFault>
    requires tokens { AreTokensIn (length line.now) tokens.now }
    requires words { All (IsWordOf tokens.now) words.now }
    requires few { length words.now < 2 ^ 31 }
    ensures { IsRead result (commands.kept_command name.now (kept_of line.now tokens.now (pairs_of line.now tokens.now 4 words.now))) }
{
    match read_keep(alloc, line, tokens, words, 4) {
        Ok(kept) => read_command(name, kept),
        Err(fault) => Err(refused(name, fault)),
    }
}

fn is_set(word: Option<&[u8]>) -> bool
    ensures { result ≡ commands.is_set (option_copied word.entry) }
{
    match word {
        Some(word) => is_word(word, b"set"),
        None => false,
    }
}

/// Reads what follows `attr`: `set NAME KEY VALUE ..`.
#[inline(never)]
pub(crate) fn attr_command(
    alloc: Global,
    line: &[u8],
    tokens: &[Token],
    words: &[Word],
) -> Result<Command, LineFault>
    requires tokens { AreTokensIn (length line.now) tokens.now }
    requires words { All (IsWordOf tokens.now) words.now }
    requires few { length words.now < 2 ^ 31 }
    ensures { IsRead result (commands.attr_command line.now tokens.now words.now) }
{
    match words {
        [set, name, rest @ ..] => {
            if !is_set(atom_text(line, tokens, *set)) {
                return Err(LineFault::Refused(Refusal::Syntax));
            }
            match atom_text(line, tokens, *name) {
                Some(name) => keep_command(alloc, line, tokens, rest, name),
                None => Err(LineFault::Refused(Refusal::Syntax)),
            }
        }
        _ => Err(LineFault::Refused(Refusal::Syntax)),
    }
}
