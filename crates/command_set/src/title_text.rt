ghost use Rattle.std.specs.Prelude.{◌≡◌, ◌↔◌, IsSome, IfSome};
ghost use Rattle.object_set.specs.TextValues.{IsTextValue};

use object_set::is_text_value;
use std::marker::Model;

/// A title: a text of at most 1,024 bytes without line feed and carriage return that can stand between braces. Contracts
/// see its bytes.
#[derive(Debug, Drop)]
pub struct TitleText {
    bytes: Vec<u8>,
}

impl Model for TitleText {
    ghost use Rattle.std.specs.Prelude.{List, ℕ};
    ghost use Rattle.object_set.specs.TextValues.{IsTextValue};

    ghost Value = { List ℕ };

    ghost view = { λ s. s.bytes.items };

    ghost invariant = { λ s. IsTextValue s.bytes.items };
}

impl TitleText {
    /// The title of these bytes, or `None` exactly where they are no such text.
    pub fn of_vec(bytes: Vec<u8>) -> Option<TitleText>
        ensures value { IfSome result (λ t. t ≡ bytes.items) }
        ensures some { IsSome result ↔ IsTextValue bytes.items }
    {
        if is_text_value(&bytes) {
            Some(TitleText { bytes })
        } else {
            None
        }
    }

    /// Lends the bytes.
    pub fn bytes(&self) -> &[u8]
        ensures value { result.now ≡ self.now }
        ensures lawful { IsTextValue result.now }
    {
        &self.bytes
    }
}
