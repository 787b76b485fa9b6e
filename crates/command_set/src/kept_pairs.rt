ghost use Rattle.std.specs.Prelude.{◌≡◌, ◌<◌, ◌^◌, ◌↔◌, length, vec_len, IsSome, IfSome};
ghost use Rattle.command_set.specs.Lawful.{AreTexts};

use object_set::{KeptAttr, have_text_values};
use std::marker::Model;

/// A list of fewer than 2^31 attributes that are to be kept. Their values are texts of at most 1,024 bytes without line
/// feed and carriage return that can stand between braces; keys may come again. Contracts see that list.
#[derive(Debug, Drop)]
pub struct KeptPairs {
    pairs: Vec<KeptAttr>,
}

impl Model for KeptPairs {
    ghost use Rattle.std.specs.Prelude.{◌<◌, ◌^◌, List, vec_len};
    ghost use Rattle.object_set.specs.declared.kept.KeptAttr.{KeptAttr};
    ghost use Rattle.command_set.specs.Lawful.{AreTexts};

    ghost Value = { List KeptAttr };

    ghost view = { λ s. s.pairs.items };

    ghost invariant = { λ s. (vec_len s.pairs < 2 ^ 31) × AreTexts s.pairs.items };
}

impl KeptPairs {
    /// The list of a vector's pairs, or `None` exactly where one of the values is no such text.
    pub fn of_vec(pairs: Vec<KeptAttr>) -> Option<KeptPairs>
        requires { vec_len pairs < 2 ^ 31 }
        ensures value { IfSome result (λ p. p ≡ pairs.items) }
        ensures some { IsSome result ↔ AreTexts pairs.items }
    {
        if have_text_values(&pairs) {
            Some(KeptPairs { pairs })
        } else {
            None
        }
    }

    /// Lends the pairs.
    pub fn items(&self) -> &[KeptAttr]
        ensures value { result.now ≡ self.now }
        ensures short { length result.now < 2 ^ 31 }
        ensures texts { AreTexts result.now }
    {
        &self.pairs
    }
}
