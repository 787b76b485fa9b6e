//! What each command makes of a directory.
ghost use Rattle.std.specs.Prelude.{All, ◌≡◌, ◌<◌, ◌≤◌, ◌^◌, ◌∷◌, length, Some, Ok};
ghost use Rattle.std.specs.Option.{option_copied};
ghost use Rattle.tcl_words.specs.Reading.{words_of};
ghost use Rattle.tcl_words.specs.TopWords.{AreTokensIn, IsWordOf};
ghost use Rattle.tcl_words.specs.declared.token.Word.{Word};
ghost use Rattle.put_form.specs.Puts.{put_of};
ghost use Rattle.asc_form.specs.Progress.{Progress};
ghost use Rattle.asc_form.specs.Reading as reading;
ghost use Rattle.asc_form.specs.Steps.{IsMade, IsMadeAt};

use crate::cut::is_passed;
use crate::fault::{AscFault, AscKind};
use crate::keep::keep_command;
use crate::kinds::{CommandFault, at_line, of_directory, of_put};
use crate::reader::Reader;
use name_core::Name;
use object_set::{Object, is_text_value};
use put_form::{read_keep, read_put};
use std::alloc::Global;
use tcl_words::{Token, Word, WordFault, atom_text, read_words, top_words};
use word_values::value_text;

fn is_word(word: &[u8], atom: Option<&[u8]>) -> bool
    ensures { result ≡ reading.is_word word.now (option_copied atom.entry) }
{
    match atom {
        None => false,
        Some(atom) => atom == word,
    }
}

/// Sets the title to this text.
fn set_title(alloc: Global, reader: &mut Reader, text: &[u8]) -> Result<(), CommandFault>
    ensures { IsMade (reading.titled reader.old.made text.now) reader.old result reader.new }
{
    if !is_text_value(text) {
        return Err(CommandFault::Faulty(AscKind::Attr));
    }
    reader.set_title(alloc, text)?;
    Ok(())
}

/// `title TEXT ..`
fn title_command(
    alloc: Global,
    reader: &mut Reader,
    text: &[u8],
    tokens: &[Token],
    words: &[Word],
) -> Result<(), CommandFault>
    requires tokens { AreTokensIn (length text.now) tokens.now }
    requires words { All (IsWordOf tokens.now) words.now }
    ensures { IsMade (reading.title_made reader.old.made text.now tokens.now words.now) reader.old result reader.new }
{
    match words {
        [] => Err(CommandFault::Faulty(AscKind::NoType)),
        [value, rest @ ..] => { set_title(alloc, reader, value_text(text, tokens, *value, rest)) }
    }
}

/// `units mm`: no directory is changed.
fn units_command(text: &[u8], tokens: &[Token], words: &[Word]) -> Result<(), CommandFault>
    requires tokens { AreTokensIn (length text.now) tokens.now }
    requires words { All (IsWordOf tokens.now) words.now }
    ensures { (p : Progress) → IsMade (reading.units_made p.made text.now tokens.now words.now) p result p }
{
    match words {
        [unit] => {
            if is_word(b"mm", atom_text(text, tokens, *unit)) {
                Ok(())
            } else {
                Err(CommandFault::Faulty(AscKind::NoType))
            }
        }
        _ => Err(CommandFault::Faulty(AscKind::NoType)),
    }
}

/// Puts an object under a new name.
fn put_object(reader: &mut Reader, name: &Name, object: Object) -> Result<(), CommandFault>
    ensures { IsMade (reading.put_into reader.old.made (Ok (name.now, object))) reader.old result reader.new }
{
    match reader.put(name, object) {
        Ok(()) => Ok(()),
        Err(fault) => Err(of_directory(fault)),
    }
}

/// `put NAME TYPE KEY VALUE ..`
fn put_command(
    alloc: Global,
    reader: &mut Reader,
    text: &[u8],
    tokens: &[Token],
    words: &[Word],
) -> Result<(), CommandFault>
    requires short { length text.now < 2 ^ 31 }
    requires tokens { AreTokensIn (length text.now) tokens.now }
    requires words { All (IsWordOf tokens.now) words.now }
    requires few { length words.now ≤ 2 ^ 31 }
    ensures { IsMade (reading.put_into reader.old.made (put_of text.now tokens.now words.now)) reader.old result reader.new }
{
    match read_put(alloc, text, tokens, words) {
        Ok((name, object)) => put_object(reader, &name, object),
        Err(fault) => Err(of_put(fault)),
    }
}

/// `attr set NAME KEY VALUE ..`
fn attr_command(
    alloc: Global,
    reader: &mut Reader,
    text: &[u8],
    tokens: &[Token],
    words: &[Word],
) -> Result<(), CommandFault>
    requires tokens { AreTokensIn (length text.now) tokens.now }
    requires words { All (IsWordOf tokens.now) words.now }
    requires few { length words.now ≤ 2 ^ 31 }
    ensures { IsMade (reading.attr_made reader.old.made text.now tokens.now words.now) reader.old result reader.new }
{
    match words {
        [set, name, rest @ ..] => {
            if is_word(b"set", atom_text(text, tokens, *set)) {
                let read = read_keep(alloc, text, tokens, rest, 4);
                keep_command(alloc, reader, atom_text(text, tokens, *name), read)
            } else {
                Err(CommandFault::Faulty(AscKind::NoType))
            }
        }
        _ => Err(CommandFault::Faulty(AscKind::NoType)),
    }
}

/// The command of this name: `words` are all its words, and `rest` those that follow the first.
fn named_command(
    alloc: Global,
    reader: &mut Reader,
    text: &[u8],
    tokens: &[Token],
    words: &[Word],
    rest: &[Word],
    name: &[u8],
) -> Result<(), CommandFault>
    requires short { length text.now < 2 ^ 31 }
    requires tokens { AreTokensIn (length text.now) tokens.now }
    requires words { All (IsWordOf tokens.now) words.now }
    requires few { length words.now ≤ 2 ^ 31 }
    requires rest { All (IsWordOf tokens.now) rest.now }
    requires fewer { length rest.now ≤ 2 ^ 31 }
    ensures { (word : Word) → words.now ≡ word ∷ rest.now → IsMade (reading.named_made reader.old.made text.now tokens.now word rest.now (Some name.now)) reader.old result reader.new }
{
    if name == b"put".as_slice() {
        put_command(alloc, reader, text, tokens, words)
    } else if name == b"attr".as_slice() {
        attr_command(alloc, reader, text, tokens, rest)
    } else if name == b"title".as_slice() {
        title_command(alloc, reader, text, tokens, rest)
    } else if name == b"units".as_slice() {
        units_command(text, tokens, rest)
    } else {
        Err(CommandFault::Faulty(AscKind::NoType))
    }
}

/// The command of these words.
fn words_command(
    alloc: Global,
    reader: &mut Reader,
    text: &[u8],
    tokens: &[Token],
    words: &[Word],
) -> Result<(), CommandFault>
    requires short { length text.now < 2 ^ 31 }
    requires tokens { AreTokensIn (length text.now) tokens.now }
    requires words { All (IsWordOf tokens.now) words.now }
    requires few { length words.now ≤ 2 ^ 31 }
    ensures { IsMade (reading.words_made reader.old.made text.now tokens.now words.now) reader.old result reader.new }
{
    match words {
        [] => Ok(()),
        [first, rest @ ..] => match atom_text(text, tokens, *first) {
            Some(name) => named_command(alloc, reader, text, tokens, words, rest, name),
            None => Err(CommandFault::Faulty(AscKind::NoType)),
        },
    }
}

/// The command of this text, which is not passed over.
fn read_command(alloc: Global, reader: &mut Reader, text: &[u8]) -> Result<(), CommandFault>
    requires { length text.now < 2 ^ 31 }
    ensures { IsMade (reading.read_made reader.old.made text.now (words_of text.now)) reader.old result reader.new }
{
    match read_words(alloc, text) {
        Ok(read) => {
            let words = top_words(alloc, read.tokens())?;
            words_command(alloc, reader, text, read.tokens(), &words)
        }
        Err(WordFault::Memory) => Err(CommandFault::Memory),
        Err(_) => Err(CommandFault::Faulty(AscKind::Words)),
    }
}

/// Makes of a directory what the command of this text makes of it.
fn apply_command(alloc: Global, reader: &mut Reader, text: &[u8]) -> Result<(), CommandFault>
    requires { length text.now < 2 ^ 31 }
    ensures { IsMade (reading.made_by reader.old.made text.now) reader.old result reader.new }
{
    if is_passed(text) {
        return Ok(());
    }
    read_command(alloc, reader, text)
}

/// Makes of a directory what the command that begins on this line makes of it.
pub(crate) fn apply_at(
    alloc: Global,
    reader: &mut Reader,
    line: u32,
    text: &[u8],
) -> Result<(), AscFault>
    requires { length text.now < 2 ^ 31 }
    ensures { IsMadeAt (reading.made_by reader.old.made text.now) reader.old line result reader.new }
{
    reader.begin(line);
    match apply_command(alloc, reader, text) {
        Ok(()) => Ok(()),
        Err(fault) => Err(at_line(line, fault)),
    }
}
