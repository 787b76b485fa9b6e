//! Reads the command that makes an object by its type, keys and values.
ghost use Rattle.std.specs.Prelude.{All, ◌<◌, ◌≤◌, ◌^◌, length};
ghost use Rattle.tcl_words.specs.TopWords.{AreTokensIn, IsWordOf};
ghost use Rattle.put_form.specs.Puts.{put_of};
ghost use Rattle.mged_words.specs.Commands as commands;
ghost use Rattle.mged_words.specs.Readings.{IsRead};

use crate::fault::LineFault;
use command_set::{Command, Edit, HeldObject, Refusal};
use put_form::read_put;
use std::alloc::Global;
use tcl_words::{Token, Word, atom_text};

/// Reads the words of an object, of which the second is an atom.
fn made_command(
    alloc: Global,
    line: &[u8],
    tokens: &[Token],
    words: &[Word],
) -> Result<Command, LineFault>
    requires short { length line.now < 2 ^ 31 }
    requires tokens { AreTokensIn (length line.now) tokens.now }
    requires words { All (IsWordOf tokens.now) words.now }
    requires few { length words.now ≤ 2 ^ 31 }
    ensures { IsRead result (commands.put_made (put_of line.now tokens.now words.now)) }
{
    let (name, object) = read_put(alloc, line, tokens, words)?;
    let object = HeldObject::new(alloc, object)?;
    Ok(Command::Edit(Edit::Make { name, object }))
}

/// Reads `put NAME TYPE KEY VALUE ..`, the command's own word among the words.
#[inline(never)]
pub(crate) fn put_command(
    alloc: Global,
    line: &[u8],
    tokens: &[Token],
    words: &[Word],
) -> Result<Command, LineFault>
    requires short { length line.now < 2 ^ 31 }
    requires tokens { AreTokensIn (length line.now) tokens.now }
    requires words { All (IsWordOf tokens.now) words.now }
    requires few { length words.now ≤ 2 ^ 31 }
    ensures { IsRead result (commands.put_command line.now tokens.now words.now) }
{
    match words {
        [_, name, ..] => {
            if atom_text(line, tokens, *name).is_none() {
                return Err(LineFault::Refused(Refusal::Syntax));
            }
            made_command(alloc, line, tokens, words)
        }
        _ => Err(LineFault::Refused(Refusal::Syntax)),
    }
}
