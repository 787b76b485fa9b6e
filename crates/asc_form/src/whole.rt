//! Reads a whole directory.
ghost use Rattle.std.specs.Prelude.{◌≡◌, ◌<◌, ◌≤◌, ◌^◌, length, drop};
ghost use Rattle.asc_form.specs.Progress.{nothing_read, IsRead};
ghost use Rattle.asc_form.specs.Reading.{IsAsc};

use crate::command::apply_at;
use crate::cut::{end_of, line_feeds};
use crate::fault::AscFault;
use crate::reader::Reader;
use directory::Directory;
use std::alloc::Global;

/// The bytes from a place on.
fn text_from(text: &[u8], place: usize) -> &[u8]
    requires { place ≤ length text.now }
    ensures { result.now ≡ drop place text.now }
{
    &text[place..]
}

/// Reads the commands of a text, up to the first that has a fault of its own.
fn read_commands(alloc: Global, reader: &mut Reader, text: &[u8]) -> Result<(), AscFault>
    requires short { length text.now < 2 ^ 31 }
    requires new { reader.old ≡ nothing_read }
    ensures { IsRead text.now result reader.new }
{
    let mut rest = text;
    let mut line = 1;
    while let Some(end) = end_of(rest) {
        let command = &rest[..end];
        apply_at(alloc, reader, line, command)?;
        line += 1 + line_feeds(command);
        rest = text_from(rest, end + 1);
    }
    apply_at(alloc, reader, line, rest)
}

/// The directory that a text is, or the line and the kind of its first fault.
pub fn read_asc(alloc: Global, text: &[u8]) -> Result<Directory, AscFault>
    requires { length text.now < 2 ^ 31 }
    ensures { IsAsc result text.now }
{
    let mut reader = Reader::new(alloc);
    let read = read_commands(alloc, &mut reader, text);
    if read == Err(AscFault::Memory) {
        return Err(AscFault::Memory);
    }
    reader.end(alloc, read)
}
