//! The kinds of objects that can be put.
ghost use Rattle.std.specs.Prelude.{◌≡◌};
ghost use Rattle.put_form.specs.Kinds as kinds;

use tcl_words::is_word;
use word_values::SolidForm;

/// What an object is.
#[derive(Clone, Copy, Debug, PartialEq, Eq)]
pub enum Kind {
    Solid(SolidForm),
    /// `comb`: attributes and a tree.
    Comb,
}

impl Kind {
    /// The kind that a word names.
    pub fn of_word(word: &[u8]) -> Option<Kind>
        ensures { result ≡ kinds.kind_of word.now }
    {
        match SolidForm::of_word(word) {
            Some(form) => Some(Kind::Solid(form)),
            None => comb_of_word(word),
        }
    }
}

fn comb_of_word(word: &[u8]) -> Option<Kind>
    ensures { result ≡ kinds.comb_of word.now }
{
    if is_word(word, b"comb") {
        Some(Kind::Comb)
    } else {
        None
    }
}
