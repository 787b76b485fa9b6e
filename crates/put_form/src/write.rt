//! The lines of an object, put at the end of a text. They are made aside and put in at once, so that the text stays as it was
//! where there is no memory.
ghost use Rattle.std.specs.Prelude.{◌≡◌, ◌++◌, OnOk, OnErr, IfOk, flat_map};
ghost use Rattle.transcript.specs.Lines.{text_of, ended};
ghost use Rattle.put_form.specs.Written as written;
ghost use Rattle.put_form.specs.Written.{kept_text, object_lines};

use crate::write_attr::push_attr;
use crate::write_solid::push_solid;
use crate::write_tree::push_tree;
use memory_core::Memory;
use name_core::Name;
use object_set::{Body, KeptAttr, Object};
use std::alloc::Global;

/// Room for a line of usual length.
const LINE: usize = 1_024;

fn push_body(alloc: Global, line: &mut Vec<u8>, body: &Body) -> Result<(), Memory>
    ensures { OnOk result (line.new.items ≡ line.old.items ++ written.body_text body.now) }
{
    match body {
        Body::Solid(solid) => push_solid(line, solid),
        Body::Comb { attr, tree } => {
            line.extend_from_slice(b"comb ")?;
            push_attr(line, attr)?;
            push_tree(alloc, line, tree)
        }
    }
}

fn put_line(alloc: Global, name: &Name, body: &Body) -> Result<Vec<u8>, Memory>
    ensures { IfOk result (λ line. line.items ≡ written.put_line name.now body.now) }
{
    let mut line = Vec::with_capacity(alloc, LINE)?;
    line.extend_from_slice(b"put ")?;
    line.extend_from_slice(name.bytes())?;
    line.push(b' ')?;
    push_body(alloc, &mut line, body)?;
    Ok(line)
}

/// Puts the `put` line of an object at the end of a text, without its line feed. Where there is no memory the text stays.
pub fn push_put_line(
    alloc: Global,
    name: &Name,
    body: &Body,
    out: &mut Vec<u8>,
) -> Result<(), Memory>
    ensures ok { OnOk result (out.new.items ≡ out.old.items ++ written.put_line name.now body.now) }
    ensures err { OnErr result (out.new.items ≡ out.old.items) }
{
    let line = put_line(alloc, name, body)?;
    out.extend_from_slice(&line)?;
    Ok(())
}

/// Puts a kept attribute, after a blank, at the end of the line.
fn push_kept(line: &mut Vec<u8>, kept: &KeptAttr) -> Result<(), Memory>
    ensures { OnOk result (line.new.items ≡ line.old.items ++ kept_text kept.now) }
{
    line.push(b' ')?;
    line.extend_from_slice(kept.name.bytes())?;
    line.extend_from_slice(b" {")?;
    line.extend_from_slice(kept.value.items())?;
    line.push(b'}')?;
    Ok(())
}

fn kept_line(alloc: Global, name: &Name, kept: &[KeptAttr]) -> Result<Vec<u8>, Memory>
    ensures { IfOk result (λ line. line.items ≡ written.kept_line name.now kept.now) }
{
    let mut line = Vec::new(alloc);
    line.extend_from_slice(b"attr set ")?;
    line.extend_from_slice(name.bytes())?;
    for attribute in kept {
        push_kept(&mut line, attribute)?;
    }
    Ok(line)
}

/// Puts the `attr set` line of kept attributes at the end of a text, without its line feed. Where there is no memory the
/// text stays.
pub fn push_kept_line(
    alloc: Global,
    name: &Name,
    kept: &[KeptAttr],
    out: &mut Vec<u8>,
) -> Result<(), Memory>
    ensures ok { OnOk result (out.new.items ≡ out.old.items ++ written.kept_line name.now kept.now) }
    ensures err { OnErr result (out.new.items ≡ out.old.items) }
{
    let line = kept_line(alloc, name, kept)?;
    out.extend_from_slice(&line)?;
    Ok(())
}

/// The written lines of an object, each ended by a line feed.
fn object_text(alloc: Global, name: &Name, object: &Object) -> Result<Vec<u8>, Memory>
    ensures { IfOk result (λ text. text.items ≡ text_of (object_lines name.now object.now)) }
{
    let mut text = put_line(alloc, name, object.body())?;
    text.push(b'\n')?;
    if !object.kept().is_empty() {
        push_kept_line(alloc, name, object.kept(), &mut text)?;
        text.push(b'\n')?;
    }
    Ok(text)
}

/// Puts the written lines of an object at the end of a text, each ended by a line feed: its `put` line, and its `attr set`
/// line where it keeps attributes. Where there is no memory the text stays.
pub fn write_put(
    alloc: Global,
    name: &Name,
    object: &Object,
    out: &mut Vec<u8>,
) -> Result<(), Memory>
    ensures ok { OnOk result (out.new.items ≡ out.old.items ++ text_of (object_lines name.now object.now)) }
    ensures err { OnErr result (out.new.items ≡ out.old.items) }
{
    let text = object_text(alloc, name, object)?;
    out.extend_from_slice(&text)?;
    Ok(())
}
