ghost use Rattle.std.specs.Prelude.{◌≡◌, ◌≤◌, ◌<◌, length, IfSome, IfNone};
ghost use Rattle.std.specs.List.{prefix_len, list_any};
ghost use Rattle.tcl_words.specs.Bytes.{is_blank};
ghost use Rattle.region_attr.specs.Colours as colours;

use crate::attr::Rgb;
use crate::limit::MOST_PART;
use crate::value::number_to;
use tcl_words::is_blank;

fn is_slash(byte: u8) -> bool
    ensures { result ≡ colours.is_slash byte }
{
    byte == b'/'
}

/// How many blanks stand at the front.
fn blank_count(text: &[u8]) -> usize
    ensures count { result ≡ prefix_len is_blank text.now }
    ensures within { result ≤ length text.now }
{
    for (count, byte) in text.iter().enumerate() {
        if !is_blank(*byte) {
            return count;
        }
    }
    text.len()
}

/// How many bytes stand before the first blank.
fn word_len(text: &[u8]) -> usize
    ensures count { result ≡ colours.len_before is_blank text.now }
    ensures within { result ≤ length text.now }
{
    for (count, byte) in text.iter().enumerate() {
        if is_blank(*byte) {
            return count;
        }
    }
    text.len()
}

/// How many bytes stand before the first `/`.
fn piece_len(text: &[u8]) -> usize
    ensures count { result ≡ colours.len_before colours.is_slash text.now }
    ensures within { result ≤ length text.now }
{
    for (count, byte) in text.iter().enumerate() {
        if is_slash(*byte) {
            return count;
        }
    }
    text.len()
}

fn trimmed(text: &[u8]) -> &[u8]
    ensures { result.now ≡ colours.trimmed text.now }
{
    &text[blank_count(text)..]
}

/// The first word of a text, and what follows it.
fn split_word(text: &[u8]) -> (&[u8], &[u8])
    ensures word { result.0.now ≡ colours.first_word text.now }
    ensures rest { result.1.now ≡ colours.after_word text.now }
{
    let text = trimmed(text);
    let end = word_len(text);
    (&text[..end], &text[end..])
}

/// What stands before the first `/` and what behind it.
fn split_piece(text: &[u8]) -> Option<(&[u8], &[u8])>
    ensures some { IfSome result (λ _. colours.len_before colours.is_slash text.now < length text.now) }
    ensures piece { IfSome result (λ p. p.0.now ≡ colours.first_piece text.now) }
    ensures rest { IfSome result (λ p. p.1.now ≡ colours.after_piece text.now) }
    ensures none { IfNone result (length text.now ≤ colours.len_before colours.is_slash text.now) }
{
    let end = piece_len(text);
    if end == text.len() {
        return None;
    }
    Some((&text[..end], &text[end + 1..]))
}

/// A part of a colour: a number from 0 to 255.
fn part(text: &[u8]) -> Option<u8>
    ensures { result ≡ colours.part text.now }
{
    let part = number_to(MOST_PART, text)?;
    Some(part as u8)
}

fn of_parts(red: &[u8], green: &[u8], blue: &[u8]) -> Option<Rgb>
    ensures { result ≡ colours.colour (colours.part red.now) (colours.part green.now) (colours.part blue.now) }
{
    Some(Rgb {
        r: part(red)?,
        g: part(green)?,
        b: part(blue)?,
    })
}

/// The colour of three parts between blanks.
fn of_words(text: &[u8]) -> Option<Rgb>
    ensures { result ≡ colours.colour_of_parts (colours.words text.now) }
{
    let (red, after_red) = split_word(text);
    let (green, after_green) = split_word(after_red);
    let (blue, after_blue) = split_word(after_green);
    if trimmed(after_blue).is_empty() {
        of_parts(red, green, blue)
    } else {
        None
    }
}

/// The colour of three parts between slashes.
fn of_pieces(text: &[u8]) -> Option<Rgb>
    ensures { result ≡ colours.colour_of_parts (colours.pieces colours.is_slash text.now) }
{
    let (red, after_red) = split_piece(text)?;
    let (green, blue) = split_piece(after_red)?;
    of_parts(red, green, blue)
}

fn has_slash(text: &[u8]) -> bool
    ensures { result ≡ list_any colours.is_slash text.now }
{
    text.iter().any(|byte| is_slash(*byte))
}

/// The colour that a text spells: three numbers from 0 to 255, parted by `/` or by blanks.
pub(crate) fn colour(text: &[u8]) -> Option<Rgb>
    ensures { result ≡ colours.colour_of text.now }
{
    if has_slash(text) {
        of_pieces(text)
    } else {
        of_words(text)
    }
}
