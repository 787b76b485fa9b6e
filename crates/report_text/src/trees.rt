//! Listings of trees: a line for each name, and below a combination's line those of its leaves. A listing can be far longer
//! than the directory, so each line is put in with the room that is left, and ends everything where it has none.
ghost use Rattle.std.specs.Prelude.{◌≡◌, ◌≤◌, ◌<◌, ◌+◌, ◌*◌, ◌^◌, ◌++◌, length, replicate};
ghost use Rattle.transcript.specs.Lines.{Lacks};
ghost use Rattle.name_core.specs.NameText.{IsName};
ghost use Rattle.directory.specs.Walks.{object_of};
ghost use Rattle.report_text.specs.Listings as listings;
ghost use Rattle.report_text.specs.Listings.{marked, leaf_line, with_below, lines_below, listing_of};
ghost use Rattle.report_text.specs.Steps.{IsPushed};
ghost use Rattle.report_text.specs.Texts.{IsText};

use crate::fault::TextFault;
use crate::leaves::{Leaf, leaves_of_name};
use crate::lines::push_one;
use crate::names::mark;
use comb_tree::Op;
use directory::Directory;
use fixed_text::FixedText;
use name_core::Name;
use std::alloc::Global;
use transcript::Body;

/// How many combinations lie one in the other at most.
const LEVELS: u32 = 16;

/// The line of a leaf, which has at most 100 bytes.
type LeafLine = FixedText<128>;

/// What is printed behind a name.
fn mark_in(directory: &Directory, name: &Name) -> &'static [u8]
    ensures { result.now ≡ listings.mark_in (object_of directory.now.objects name.now) }
{
    match directory.get(name) {
        Some(object) => mark(object),
        None => b"?",
    }
}

fn operator_text(op: Op) -> &'static [u8]
    ensures { result.now ≡ listings.operator_text op }
{
    match op {
        Op::U => b"u",
        Op::N => b"+",
        Op::Minus => b"-",
        Op::X => b"^",
    }
}

/// Puts a name with its mark at the end of the line.
fn push_marked(line: &mut LeafLine, directory: &Directory, name: &Name)
    requires { length line.old ≤ 60 }
    ensures value { line.new ≡ line.old ++ marked directory.now.objects name.now }
    ensures named { IsName name.now }
{
    line.push(name.bytes());
    line.push(mark_in(directory, name));
}

/// Begins the line of this level.
fn push_blanks(line: &mut LeafLine, level: u32)
    requires { length line.old + 2 * level ≤ 128 }
    ensures { line.new ≡ line.old ++ replicate (2 * level) 32 }
{
    for _ in 0..level {
        line.push(b"  ");
    }
}

/// Writes the line of a leaf in place of what `out` held.
fn write_leaf(directory: &Directory, level: u32, leaf: &Leaf, out: &mut LeafLine)
    requires { level ≤ 16 }
    ensures value { out.new ≡ leaf_line directory.now.objects level leaf.now }
    ensures one_line { Lacks 10 out.new }
{
    out.clear();
    push_blanks(out, level);
    out.push(operator_text(leaf.op()));
    out.push(b" ");
    push_marked(out, directory, leaf.name());
}

/// Puts the lines of a leaf at the end: its own, and those below it, down to so many levels.
#[cycle(below)]
fn push_with_below(
    alloc: Global,
    directory: &Directory,
    level: u32,
    levels: u32,
    leaf: &Leaf,
    body: &mut Body,
    room: u64,
) -> Result<u64, TextFault>
    requires few { length body.old + room < 2 ^ 31 }
    requires deep { level + levels ≤ 16 }
    ensures { IsPushed result body.old body.new (with_below directory.now.objects level (lines_below levels directory.now.objects) leaf.now) room }
{
    let mut line = LeafLine::new();
    write_leaf(directory, level, leaf, &mut line);
    let left = push_one(body, line.bytes(), room)?;
    push_below(alloc, directory, level + 1, levels, leaf.name(), body, left)
}

/// Puts the lines below a name at the end, down to so many levels.
#[cycle(below)]
fn push_below(
    alloc: Global,
    directory: &Directory,
    level: u32,
    levels: u32,
    name: &Name,
    body: &mut Body,
    room: u64,
) -> Result<u64, TextFault>
    requires few { length body.old + room < 2 ^ 31 }
    requires deep { level + levels ≤ 17 }
    ensures { IsPushed result body.old body.new (lines_below levels directory.now.objects level name.now) room }
{
    if levels == 0 {
        return Ok(room);
    }
    let leaves = leaves_of_name(alloc, directory, name)?;
    let mut left = room;
    for leaf in &leaves {
        left = push_with_below(alloc, directory, level, levels - 1, leaf, body, left)?;
    }
    Ok(left)
}

/// Writes the line of a name in place of what `out` held.
fn write_name(directory: &Directory, name: &Name, out: &mut LeafLine)
    ensures value { out.new ≡ marked directory.now.objects name.now }
    ensures one_line { Lacks 10 out.new }
{
    out.clear();
    push_marked(out, directory, name);
}

/// Puts the listing of a name at the end.
fn push_listing(
    alloc: Global,
    directory: &Directory,
    name: &Name,
    body: &mut Body,
    room: u64,
) -> Result<u64, TextFault>
    requires { length body.old + room < 2 ^ 31 }
    ensures { IsPushed result body.old body.new (listing_of directory.now.objects name.now) room }
{
    let mut line = LeafLine::new();
    write_name(directory, name, &mut line);
    let left = push_one(body, line.bytes(), room)?;
    push_below(alloc, directory, 1, LEVELS, name, body, left)
}

/// For each name its listing: the name with its mark, and below a combination's line those of its leaves, each with its
/// operator and its mark. `Room` comes exactly where the lines have over `room` bytes, their line feeds included.
pub fn tree_text(
    alloc: Global,
    directory: &Directory,
    names: &[Name],
    room: u64,
) -> Result<Body, TextFault>
    requires { room < 2 ^ 31 }
    ensures text { IsText result (listings.listings directory.now.objects names.now) room }
{
    let mut body = Body::new(alloc);
    let mut left = room;
    for name in names {
        left = push_listing(alloc, directory, name, &mut body, left)?;
    }
    Ok(body)
}
