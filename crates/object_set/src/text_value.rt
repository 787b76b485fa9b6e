ghost use Rattle.std.specs.Prelude.{◌≡◌, ◌≢◌, ◌↔◌, All, IsTrue};
ghost use Rattle.object_set.specs.declared.text_value.TheConstants.{MOST_TEXT};
ghost use Rattle.object_set.specs.TextValues.{IsTextValue};

use tcl_words::is_group_text;

/// The greatest number of bytes of a title, and of a kept attribute's value.
const MOST_TEXT: usize = 1_024;

fn is_one_line(text: &[u8]) -> bool
    ensures { IsTrue result ↔ All (λ b. (b ≢ 10) × (b ≢ 13)) text.now }
{
    text.iter().all(|byte| *byte != b'\n' && *byte != b'\r')
}

/// Whether a text can be a title, and the value of a kept attribute: it has at most 1,024 bytes, no line feed and no
/// carriage return, and reads as one group where it stands between braces.
pub fn is_text_value(text: &[u8]) -> bool
    ensures { IsTrue result ↔ IsTextValue text.now }
{
    text.len() <= MOST_TEXT && is_one_line(text) && is_group_text(text)
}

/// The limit is this number. This law is what refuses another constant.
pub fn limit_laws()
    ensures text { MOST_TEXT ≡ 1024 }
{}
