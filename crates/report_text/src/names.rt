ghost use Rattle.std.specs.Prelude.{◌≡◌, ◌≤◌, ◌<◌, ◌+◌, ◌^◌, ◌++◌, ◌∷◌, [], length, Err, IfOk, OnOk, OnErr};
ghost use Rattle.transcript.specs.Lines.{Lacks, text_of};
ghost use Rattle.report_text.specs.Names.{mark_of, name_line, names_lines};
ghost use Rattle.report_text.specs.Texts.{IsText};

use crate::fault::TextFault;
use crate::lines::push_line;
use directory::Directory;
use fixed_text::FixedText;
use name_core::Name;
use object_set::{Body as ObjectBody, Object};
use std::alloc::Global;
use transcript::Body;

/// The line of a name, which has at most 66 bytes.
type NameLine = FixedText<72>;

/// What is printed behind the name of an object.
pub(crate) fn mark(object: &Object) -> &'static [u8]
    ensures { result.now ≡ mark_of object.now.body }
{
    match object.body() {
        ObjectBody::Solid(_) => b"",
        ObjectBody::Comb { attr, .. } => { if attr.region { b"/R" } else { b"/" } }
    }
}

/// Writes a name with the mark of its object in place of what `out` held.
fn write_line(name: &Name, object: &Object, out: &mut NameLine)
    ensures value { out.new ≡ name_line name.now object.now }
    ensures one_line { Lacks 10 out.new }
{
    out.clear();
    out.push(name.bytes());
    out.push(mark(object));
}

/// One line for each object, in order: its name with its mark, which is nothing for a solid, `/R` for a region and `/` for
/// another combination. `Room` comes exactly where the lines have over `room` bytes, their line feeds included.
pub fn names_text(alloc: Global, directory: &Directory, room: u64) -> Result<Body, TextFault>
    requires { room < 2 ^ 31 }
    ensures { IsText result (names_lines directory.now.objects) room }
{
    let mut body = Body::new(alloc);
    let mut left = room;
    for place in 0..directory.len() {
        if let Some((name, object)) = directory.at(place) {
            let mut line = NameLine::new();
            write_line(name, object, &mut line);
            left = push_line(&mut body, line.bytes(), left)?;
        }
    }
    Ok(body)
}
