//! Reads the command that sets an attribute.
ghost use Rattle.std.specs.Prelude.{All, length, IfOk};
ghost use Rattle.tcl_words.specs.TopWords.{AreTokensIn, IsWordOf};
ghost use Rattle.mged_words.specs.Commands as commands;
ghost use Rattle.mged_words.specs.Readings.{IsRead, IsSettingRead};

use crate::fault::LineFault;
use crate::names::read_name;
use command_set::{Command, Edit, Refusal, Setting};
use memory_core::Memory;
use name_core::Name;
use region_attr::AttrFault;
use std::alloc::Global;
use tcl_words::{Token, Word, atom_text};
use word_values::value_text;

/// The setting of a key and a value, or `UnknownKey`, or else `BadValue`.
fn read_setting(
    alloc: Global,
    key: &[u8],
    value: &[u8],
) -> Result<Result<Setting, AttrFault>, Memory>
    ensures { IfOk result (λ setting. IsSettingRead setting key.now value.now) }
{
    let value = Vec::from_slice(alloc, value)?;
    match Name::read(key) {
        Ok(key) => Ok(Setting::of_parts(key, value)),
        Err(_) => Ok(Err(AttrFault::UnknownKey)),
    }
}

/// Reads `cattr NAME KEY` and the text of the value.
fn set_command(alloc: Global, name: &[u8], key: &[u8], value: &[u8]) -> Result<Command, LineFault>
    ensures { IsRead result (commands.set_command name.now key.now value.now) }
{
    match read_setting(alloc, key, value)? {
        Ok(setting) => {
            let name = read_name(name, 2)?;
            Ok(Command::Edit(Edit::Set { name, setting }))
        }
        Err(AttrFault::BadValue) => {
            read_name(name, 2)?;
            Err(LineFault::Refused(Refusal::Number(4)))
        }
        Err(AttrFault::UnknownKey) => Err(LineFault::Refused(Refusal::Syntax)),
    }
}

/// Reads what follows `cattr`: `NAME KEY VALUE ..`.
#[inline(never)]
pub(crate) fn cattr_command(
    alloc: Global,
    line: &[u8],
    tokens: &[Token],
    words: &[Word],
) -> Result<Command, LineFault>
    requires tokens { AreTokensIn (length line.now) tokens.now }
    requires words { All (IsWordOf tokens.now) words.now }
    ensures { IsRead result (commands.cattr_command line.now tokens.now words.now) }
{
    match words {
        [name, key, value, rest @ ..] => {
            let Some(name) = atom_text(line, tokens, *name) else {
                return Err(LineFault::Refused(Refusal::Syntax));
            };
            let Some(key) = atom_text(line, tokens, *key) else {
                return Err(LineFault::Refused(Refusal::Syntax));
            };
            set_command(alloc, name, key, value_text(line, tokens, *value, rest))
        }
        _ => Err(LineFault::Refused(Refusal::Syntax)),
    }
}
