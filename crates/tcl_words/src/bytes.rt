ghost use Rattle.std.specs.Str.{bytes_eq};
ghost use Rattle.std.specs.Prelude.{◌≡◌};
ghost use Rattle.tcl_words.specs.Bytes as bytes;

pub(crate) fn is_open(byte: u8) -> bool
    ensures { result ≡ bytes.is_open byte }
{
    byte == b'{'
}

pub(crate) fn is_close(byte: u8) -> bool
    ensures { result ≡ bytes.is_close byte }
{
    byte == b'}'
}

/// Whether a byte is a blank: a space, a tab, a carriage return or a line feed.
pub fn is_blank(byte: u8) -> bool
    ensures { result ≡ bytes.is_blank byte }
{
    byte == b' ' || byte == b'\t' || byte == b'\r' || byte == b'\n'
}

pub(crate) fn is_atom(byte: u8) -> bool
    ensures { result ≡ bytes.is_atom byte }
{
    !(is_blank(byte) || is_open(byte) || is_close(byte))
}

pub(crate) fn is_bad(byte: u8) -> bool
    ensures { result ≡ bytes.is_bad byte }
{
    (byte < 32 && !is_blank(byte)) || byte == 127 || byte == b'\\'
}

pub(crate) fn is_bad_outside(byte: u8) -> bool
    ensures { result ≡ bytes.is_bad_outside byte }
{
    byte == b'"' || byte == b'[' || byte == b']' || byte == b'$' || byte == b';'
}

/// Whether a word is this one, byte for byte. A chain of such calls is far cheaper to prove than a `match` on the bytes.
pub fn is_word(word: &[u8], other: &[u8]) -> bool
    ensures { result ≡ bytes_eq word.now other.now }
{
    *word == *other
}
