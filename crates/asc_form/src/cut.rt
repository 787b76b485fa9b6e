//! Cuts a text into commands.
ghost use Rattle.std.specs.Prelude.{◌≡◌, ◌<◌, ◌≤◌, ◌^◌, ◌+◌, length, cond, count_by, IfSome};
ghost use Rattle.asc_form.specs.Commands as commands;
ghost use Rattle.asc_form.specs.Reading as reading;
ghost use Rattle.asc_form.specs.CutSteps as steps;

use tcl_words::is_blank;

fn first_byte(text: &[u8]) -> Option<u8>
    ensures { result ≡ commands.first_byte text.now }
{
    text.iter().copied().find(|byte| !is_blank(*byte))
}

/// Whether a command does nothing: it is blank, or its first byte that is no blank is `#`.
pub(crate) fn is_passed(command: &[u8]) -> bool
    ensures { result ≡ reading.is_passed (commands.first_byte command.now) }
{
    match first_byte(command) {
        None => true,
        Some(byte) => byte == b'#',
    }
}

/// One more where a test holds.
fn counted(count: u32, more: bool) -> u32
    requires { count < 2 ^ 31 }
    ensures { result ≡ count + cond more 1 0 }
{
    if more { count + 1 } else { count }
}

/// The first line feed from a place on, behind a `#` that no byte but blanks stands before.
fn end_of_line(text: &[u8], start: usize) -> Option<usize>
    requires short { length text.now < 2 ^ 31 }
    requires start { start < length text.now }
    requires pound { steps.IsPoundFrom text.now start }
    ensures end { result ≡ steps.end_from text.now start }
    ensures within { IfSome result (λ end. end < length text.now) }
{
    for place in start..text.len() {
        if text[place] == b'\n' {
            return Some(place);
        }
    }
    None
}

/// The first line feed outside braces from a place on, in a text whose first byte that is no blank stands there and is no
/// `#`.
fn end_outside(text: &[u8], start: usize) -> Option<usize>
    requires short { length text.now < 2 ^ 31 }
    requires start { start < length text.now }
    requires first { steps.IsFirstFrom text.now start }
    ensures end { result ≡ steps.end_from text.now start }
    ensures within { IfSome result (λ end. end < length text.now) }
{
    let mut opened = 0;
    let mut closed = 0;
    for place in start..text.len() {
        let byte = text[place];
        if byte == b'\n' && opened <= closed {
            return Some(place);
        }
        opened = counted(opened, byte == b'{');
        closed = counted(closed, byte == b'}');
    }
    None
}

/// The place at which the first command of a text ends, none where nothing follows it.
pub(crate) fn end_of(text: &[u8]) -> Option<usize>
    requires { length text.now < 2 ^ 31 }
    ensures end { result ≡ commands.end_of text.now }
    ensures within { IfSome result (λ end. end < length text.now) }
{
    for (place, byte) in text.iter().enumerate() {
        if *byte == b'\n' {
            return Some(place);
        }
        if *byte == b'#' {
            return end_of_line(text, place);
        }
        if !is_blank(*byte) {
            return end_outside(text, place);
        }
    }
    None
}

/// How many line feeds a command has.
pub(crate) fn line_feeds(command: &[u8]) -> u32
    requires { length command.now < 2 ^ 31 }
    ensures value { result ≡ count_by commands.is_line_feed command.now }
    ensures few { result ≤ length command.now }
{
    let mut count = 0;
    for byte in command {
        count = counted(count, *byte == b'\n');
    }
    count
}
