//! The names of a demo.
ghost use Rattle.std.specs.Prelude.{◌≡◌, ◌∷◌, true, decimal};
ghost use Rattle.name_core.specs.NameText.{is_first_byte, IsName};
ghost use Rattle.scene_make.specs.Demo as demo;

use fixed_text::FixedText;
use name_core::Name;

fn named(bytes: &[u8]) -> Name
    requires { IsName bytes.now }
    ensures { result ≡ bytes.now }
{
    match Name::read(bytes) {
        Ok(name) => name,
        Err(_) => unreachable!(),
    }
}

/// A letter and a number without leading zeros.
fn numbered(letter: u8, number: u32) -> Name
    requires { is_first_byte letter ≡ true }
    ensures { result ≡ letter ∷ decimal number }
{
    let mut text: FixedText<11> = FixedText::new();
    text.push(&[letter]);
    text.push_number(number);
    named(text.bytes())
}

pub(crate) fn sphere_name(i: u32) -> Name
    ensures { result ≡ demo.sphere_name i }
{
    numbered(b's', i)
}

pub(crate) fn region_name(i: u32) -> Name
    ensures { result ≡ demo.region_name i }
{
    numbered(b'r', i)
}

pub(crate) fn cut_name() -> Name
    ensures { result ≡ demo.cut_name }
{
    named(b"cut")
}

pub(crate) fn all_name() -> Name
    ensures { result ≡ demo.all_name }
{
    named(b"all")
}
