//! Reads the command that sets the title.
ghost use Rattle.std.specs.Prelude.{All, length, cond};
ghost use Rattle.tcl_words.specs.TopWords.{AreTokensIn, IsWordOf};
ghost use Rattle.put_form.specs.Keeps.{is_text};
ghost use Rattle.command_set.specs.declared.command.Edit.TheVariants as edits;
ghost use Rattle.mged_words.specs.Commands as commands;
ghost use Rattle.mged_words.specs.Readings.{IsRead};

use crate::fault::LineFault;
use command_set::{Command, Edit, Refusal, TitleText};
use std::alloc::Global;
use tcl_words::{Token, Word};
use word_values::value_text;

/// The command of a title, where the text can be one.
fn text_command(alloc: Global, text: &[u8]) -> Result<Command, LineFault>
    ensures { IsRead result (cond (is_text text.now) (Command.Edit (edits.Title text.now)) (Command.Bad Refusal.Syntax)) }
{
    match TitleText::of_vec(Vec::from_slice(alloc, text)?) {
        Some(text) => Ok(Command::Edit(Edit::Title { text })),
        None => Err(LineFault::Refused(Refusal::Syntax)),
    }
}

/// Reads what follows `title`: `TEXT ..`.
#[inline(never)]
pub(crate) fn title_command(
    alloc: Global,
    line: &[u8],
    tokens: &[Token],
    words: &[Word],
) -> Result<Command, LineFault>
    requires tokens { AreTokensIn (length line.now) tokens.now }
    requires words { All (IsWordOf tokens.now) words.now }
    ensures { IsRead result (commands.title_command line.now tokens.now words.now) }
{
    match words {
        [value, rest @ ..] => text_command(alloc, value_text(line, tokens, *value, rest)),
        _ => Err(LineFault::Refused(Refusal::Syntax)),
    }
}
