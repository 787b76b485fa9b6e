//! Writes a whole directory.
ghost use Rattle.std.specs.Prelude.{◌≡◌, ◌≤◌, ◌<◌, ◌^◌, [], length, IfOk, IfSome, IfNone};
ghost use Rattle.asc_form.specs.Written.{written};

use directory::Directory;
use memory_core::Memory;
use put_form::write_put;
use std::alloc::Global;

/// The text of a title and of the unit.
fn heading(alloc: Global, title: &[u8]) -> Result<Vec<u8>, Memory>
    ensures { IfOk result (λ text. text.items ≡ written (record { title = title.now; objects = [] })) }
{
    let mut text = Vec::new(alloc);
    text.extend_from_slice(b"title {")?;
    text.extend_from_slice(title)?;
    text.extend_from_slice(b"}\nunits mm\n")?;
    Ok(text)
}

/// The written text of a directory, where it has at most so many bytes, else none. It is not made further than that.
pub fn write_asc(alloc: Global, directory: &Directory, room: u64) -> Result<Option<Vec<u8>>, Memory>
    requires { room < 2 ^ 31 }
    ensures some { IfOk result (λ found. IfSome found (λ text. (text.items ≡ written directory.now) × (length (written directory.now) ≤ room))) }
    ensures none { IfOk result (λ found. IfNone found (room < length (written directory.now))) }
{
    let mut text = heading(alloc, directory.title())?;
    for place in 0..directory.len() {
        if text.len() as u64 > room {
            return Ok(None);
        }
        if let Some((name, object)) = directory.at(place) {
            write_put(alloc, name, object, &mut text)?;
        }
    }
    if text.len() as u64 > room {
        return Ok(None);
    }
    Ok(Some(text))
}
