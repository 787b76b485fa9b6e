ghost use Rattle.std.specs.Prelude.{◌≡◌};
ghost use Rattle.region_attr.specs.Keys.{key_of};

use tcl_words::is_word;

/// Which attribute a key names.
#[derive(Clone, Copy, Debug, PartialEq, Eq)]
pub enum Key {
    Region,
    Id,
    Air,
    Los,
    Mater,
    Rgb,
    Inherit,
}

/// The attribute that a text names.
pub(crate) fn read_key(key: &[u8]) -> Option<Key>
    ensures { result ≡ key_of key.now }
{
    if is_word(key, b"region") {
        Some(Key::Region)
    } else if is_word(key, b"id") {
        Some(Key::Id)
    } else if is_word(key, b"air") {
        Some(Key::Air)
    } else if is_word(key, b"los") {
        Some(Key::Los)
    } else if is_word(key, b"mater") {
        Some(Key::Mater)
    } else if is_word(key, b"rgb") {
        Some(Key::Rgb)
    } else if is_word(key, b"inherit") {
        Some(Key::Inherit)
    } else {
        None
    }
}
