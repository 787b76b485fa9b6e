ghost use Rattle.std.specs.Prelude.{◌≡◌, ◌≤◌, ◌++◌, ◌∷◌, [], length, cond, IfOk, OnOk};
ghost use Rattle.std.specs.List.{slice_range};
ghost use Rattle.tcl_words.specs.Reading as reading;
ghost use Rattle.tcl_words.specs.Pieces as written;

use crate::read::Words;
use crate::token::{Kind, Token};
use memory_core::Memory;
use std::alloc::Global;

/// Whether a blank stands between two tokens that are written.
fn has_gap(last: Kind, kind: Kind) -> bool
    ensures { written.gap last kind ≡ cond result (32 ∷ []) [] }
{
    !matches!(last, Kind::Open) && !matches!(kind, Kind::Close)
}

/// Writes one token behind another.
fn add_token(out: &mut Vec<u8>, last: Kind, text: &[u8], token: &Token) -> Result<(), Memory>
    requires start { token.now.start ≤ token.now.end }
    requires end { token.now.end ≤ length text.now }
    ensures { OnOk result (out.new.items ≡ out.old.items ++ written.gap last token.now.kind ++ slice_range text.now token.now.start token.now.end) }
{
    if has_gap(last, token.kind) {
        out.push(b' ')?;
    }
    out.extend_from_slice(&text[token.start as usize..token.end as usize])?;
    Ok(())
}

/// Writes the words that were read from a text: one blank between words, none after `{` and before `}`.
/// Reading what is written gives words of the same kinds and texts.
pub fn write_words(alloc: Global, text: &[u8], words: &Words) -> Result<Vec<u8>, Memory>
    requires { reading.words_of text.now ≡ Ok words.now }
    ensures exact { IfOk result (λ out. out.items ≡ written.written text.now words.now) }
    ensures again { IfOk result (λ out. written.HasWordsOf out.items text.now words.now) }
{
    let mut out = Vec::new(alloc);
    let mut last = Kind::Open;
    for token in words.tokens() {
        add_token(&mut out, last, text, token)?;
        last = token.kind;
    }
    Ok(out)
}
