//! Reads one object.
ghost use Rattle.std.specs.Prelude.{All, ◌≡◌, ◌≤◌, ◌<◌, ◌+◌, ◌^◌, Some, length};
ghost use Rattle.std.specs.Option.{option_copied};
ghost use Rattle.tcl_words.specs.TopWords.{AreTokensIn, IsWordOf};
ghost use Rattle.put_form.specs.Pairs.{pairs_of};
ghost use Rattle.put_form.specs.Puts as puts;
ghost use Rattle.put_form.specs.Puts.{IsPut};
ghost use Rattle.put_form.specs.Steps.{HaveWords, IsPutRead};
ghost use Rattle.put_form.specs.PutSteps as steps;

use crate::comb::read_comb;
use crate::fault::PutFault;
use crate::kind::Kind;
use crate::pairs::{KeyValue, read_pairs};
use crate::solid::read_solid;
use name_core::Name;
use object_set::Object;
use std::alloc::Global;
use tcl_words::{Token, Word, atom_text, is_word};

fn is_put_word(word: &[u8]) -> bool
    ensures { result ≡ puts.is_put (Some word.now) }
{
    is_word(word, b"put")
}

fn is_put(word: Option<&[u8]>) -> bool
    ensures { result ≡ puts.is_put (option_copied word.entry) }
{
    match word {
        Some(word) => is_put_word(word),
        None => false,
    }
}

fn kind_named(word: Option<&[u8]>) -> Option<Kind>
    ensures { result ≡ puts.kind_named (option_copied word.entry) }
{
    match word {
        Some(word) => Kind::of_word(word),
        None => None,
    }
}

/// The object that keys and values are, or the first fault.
fn pairs_put(
    alloc: Global,
    text: &[u8],
    tokens: &[Token],
    name: Option<&[u8]>,
    kind: Kind,
    pairs: &[KeyValue],
) -> Result<(Name, Object), PutFault>
    requires short { length text.now < 2 ^ 31 }
    requires tokens { AreTokensIn (length text.now) tokens.now }
    requires words { HaveWords tokens.now pairs.now }
    ensures { IsPutRead result (puts.kind_put text.now tokens.now (option_copied name.entry) (Some kind) (Some pairs.now)) }
{
    match kind {
        Kind::Solid(form) => read_solid(alloc, text, tokens, form, name, pairs),
        Kind::Comb => read_comb(alloc, text, tokens, name, pairs),
    }
}

/// The object of a kind that words are, or the first fault.
fn kind_put(
    alloc: Global,
    text: &[u8],
    tokens: &[Token],
    name: Option<&[u8]>,
    kind: Kind,
    words: &[Word],
) -> Result<(Name, Object), PutFault>
    requires short { length text.now < 2 ^ 31 }
    requires tokens { AreTokensIn (length text.now) tokens.now }
    requires words { All (IsWordOf tokens.now) words.now }
    requires few { length words.now ≤ 2 ^ 31 }
    ensures { IsPutRead result (puts.kind_put text.now tokens.now (option_copied name.entry) (Some kind) (pairs_of text.now tokens.now 4 words.now)) }
{
    match read_pairs(alloc, text, tokens, words, 4)? {
        Some(pairs) => pairs_put(alloc, text, tokens, name, kind, &pairs),
        None => Err(PutFault::Attr),
    }
}

/// The object that the words from the type on are, or the first fault.
fn typed_put(
    alloc: Global,
    text: &[u8],
    tokens: &[Token],
    name: Option<&[u8]>,
    kind: Option<Kind>,
    words: &[Word],
) -> Result<(Name, Object), PutFault>
    requires short { length text.now < 2 ^ 31 }
    requires tokens { AreTokensIn (length text.now) tokens.now }
    requires words { All (IsWordOf tokens.now) words.now }
    requires few { length words.now ≤ 2 ^ 31 }
    ensures { IsPutRead result (puts.kind_put text.now tokens.now (option_copied name.entry) kind (pairs_of text.now tokens.now 4 words.now)) }
{
    match kind {
        Some(kind) => kind_put(alloc, text, tokens, name, kind, words),
        None => Err(PutFault::NoType),
    }
}

/// The object that the words `put`, a name, a type and those behind them are, or the first fault.
fn words_put(
    alloc: Global,
    text: &[u8],
    tokens: &[Token],
    word: Word,
    name: Word,
    kind: Word,
    rest: &[Word],
) -> Result<(Name, Object), PutFault>
    requires short { length text.now < 2 ^ 31 }
    requires tokens { AreTokensIn (length text.now) tokens.now }
    requires word { IsWordOf tokens.now word }
    requires name { IsWordOf tokens.now name }
    requires kind { IsWordOf tokens.now kind }
    requires rest { All (IsWordOf tokens.now) rest.now }
    requires few { length rest.now ≤ 2 ^ 31 }
    ensures { IsPutRead result (steps.words_put text.now tokens.now word name kind rest.now) }
{
    if is_put(atom_text(text, tokens, word)) {
        let name = atom_text(text, tokens, name);
        let kind = kind_named(atom_text(text, tokens, kind));
        typed_put(alloc, text, tokens, name, kind, rest)
    } else {
        Err(PutFault::NoType)
    }
}

/// The name and the object that the words of a text are, `put NAME TYPE KEY VALUE ..`, or the first fault. The words are
/// those outside all groups.
pub fn read_put(
    alloc: Global,
    text: &[u8],
    tokens: &[Token],
    words: &[Word],
) -> Result<(Name, Object), PutFault>
    requires short { length text.now < 2 ^ 31 }
    requires tokens { AreTokensIn (length text.now) tokens.now }
    requires words { All (IsWordOf tokens.now) words.now }
    requires few { length words.now ≤ 2 ^ 31 }
    ensures { IsPut result text.now tokens.now words.now }
{
    match words {
        [word, name, kind, rest @ ..] => words_put(alloc, text, tokens, *word, *name, *kind, rest),
        _ => Err(PutFault::NoType),
    }
}
