//! The written lines of objects.
ghost use Rattle.std.specs.Prelude.{◌≡◌, ◌<◌, ◌+◌, ◌^◌, length, IfOk};
ghost use Rattle.transcript.specs.Lines.{Lacks};
ghost use Rattle.object_set.specs.Objects.{IsKept};
ghost use Rattle.directory.specs.Walks.{object_of};
ghost use Rattle.put_form.specs.Written as written;
ghost use Rattle.put_form.specs.Written.{kept_lines, object_lines};
ghost use Rattle.report_text.specs.Listings.{lines_of, written_lines};
ghost use Rattle.report_text.specs.Steps.{IsPushed};
ghost use Rattle.report_text.specs.Texts.{IsText};

use crate::fault::TextFault;
use crate::lines::push_one;
use directory::Directory;
use memory_core::Memory;
use name_core::Name;
use object_set::{Body as ObjectBody, KeptAttr, Object, recall_keys, recall_members};
use put_form::{push_kept_line, push_put_line};
use std::alloc::Global;
use transcript::Body;

fn put_line(alloc: Global, name: &Name, body: &ObjectBody) -> Result<Vec<u8>, Memory>
    ensures value { IfOk result (λ line. line.items ≡ written.put_line name.now body.now) }
    ensures one_line { IfOk result (λ line. Lacks 10 line.items) }
{
    let _bytes = name.bytes();
    recall_members(body);
    let mut line = Vec::new(alloc);
    push_put_line(alloc, name, body, &mut line)?;
    Ok(line)
}

fn kept_line(alloc: Global, name: &Name, kept: &[KeptAttr]) -> Result<Vec<u8>, Memory>
    requires { IsKept kept.now }
    ensures value { IfOk result (λ line. line.items ≡ written.kept_line name.now kept.now) }
    ensures one_line { IfOk result (λ line. Lacks 10 line.items) }
{
    let _bytes = name.bytes();
    recall_keys(kept);
    let mut line = Vec::new(alloc);
    push_kept_line(alloc, name, kept, &mut line)?;
    Ok(line)
}

/// Puts the `attr set` line at the end, where attributes are kept.
fn push_kept(
    alloc: Global,
    name: &Name,
    kept: &[KeptAttr],
    body: &mut Body,
    room: u64,
) -> Result<u64, TextFault>
    requires kept { IsKept kept.now }
    requires few { length body.old + room < 2 ^ 31 }
    ensures { IsPushed result body.old body.new (kept_lines name.now kept.now) room }
{
    if kept.is_empty() {
        return Ok(room);
    }
    let line = kept_line(alloc, name, kept)?;
    push_one(body, &line, room)
}

/// Puts the written lines of an object at the end.
fn push_object(
    alloc: Global,
    name: &Name,
    object: &Object,
    body: &mut Body,
    room: u64,
) -> Result<u64, TextFault>
    requires { length body.old + room < 2 ^ 31 }
    ensures { IsPushed result body.old body.new (object_lines name.now object.now) room }
{
    let line = put_line(alloc, name, object.body())?;
    let left = push_one(body, &line, room)?;
    push_kept(alloc, name, object.kept(), body, left)
}

/// Puts the written lines of a name at the end, where it is there.
fn push_written(
    alloc: Global,
    directory: &Directory,
    name: &Name,
    body: &mut Body,
    room: u64,
) -> Result<u64, TextFault>
    requires { length body.old + room < 2 ^ 31 }
    ensures { IsPushed result body.old body.new (lines_of name.now (object_of directory.now.objects name.now)) room }
{
    match directory.get(name) {
        Some(object) => push_object(alloc, name, object, body, room),
        None => Ok(room),
    }
}

/// The written lines of each name's object: its `put` line, and its `attr set` line where it keeps attributes. A name that
/// is not there has none. `Room` comes exactly where they have over `room` bytes, their line feeds included.
pub fn list_text(
    alloc: Global,
    directory: &Directory,
    names: &[Name],
    room: u64,
) -> Result<Body, TextFault>
    requires { room < 2 ^ 31 }
    ensures text { IsText result (written_lines directory.now.objects names.now) room }
{
    let mut body = Body::new(alloc);
    let mut left = room;
    for name in names {
        left = push_written(alloc, directory, name, &mut body, left)?;
    }
    Ok(body)
}
