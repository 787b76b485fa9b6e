//! The lines of regions that overlap.
ghost use Rattle.std.specs.Prelude.{◌≡◌, ◌<◌, ◌++◌, ◌^◌, IfOk, OnOk, length, codes};
ghost use Rattle.transcript.specs.Lines.{Lacks};
ghost use Rattle.shot_core.specs.Regions.{IsPathText};
ghost use Rattle.report_text.specs.Overlaps.{path_at, place_words, rays_words, pair_line, overlap_lines, LinesAreLong, ManyPairsAreLong};
ghost use Rattle.report_text.specs.Texts.{IsText};

use crate::fault::TextFault;
use crate::lines::{push_line, push_number, push_position};
use memory_core::Memory;
use shot_core::{Pair, Scene};
use std::alloc::Global;
use transcript::Body;

/// The path of the region of a place, or nothing where no region has it.
fn path_of(scene: &Scene, place: u32) -> &[u8]
    ensures value { result.now ≡ path_at scene.now place }
    ensures line { IsPathText result.now }
{
    let regions = scene.regions();
    match regions.binary_search_by_key(&place, |region| region.place()) {
        Ok(at) => regions[at].path().items(),
        Err(_) => b"",
    }
}

/// Puts a place and the path of its region at the end.
fn push_region(line: &mut Vec<u8>, scene: &Scene, place: u32) -> Result<(), Memory>
    ensures value { OnOk result (line.new.items ≡ line.old.items ++ place_words scene.now place) }
    ensures line { IsPathText (path_at scene.now place) }
{
    let path = path_of(scene, place);
    push_number(line, place)?;
    line.extend_from_slice(b" ")?;
    line.extend_from_slice(path)?;
    Ok(())
}

/// Puts at the end on how many rays a pair overlaps, the first of them, and where the overlap starts and ends on it.
fn push_rays(line: &mut Vec<u8>, pair: &Pair) -> Result<(), Memory>
    ensures { OnOk result (line.new.items ≡ line.old.items ++ rays_words pair.now) }
{
    line.extend_from_slice(b" rays ")?;
    push_number(line, pair.rays)?;
    line.extend_from_slice(b" first ")?;
    push_number(line, pair.column)?;
    line.extend_from_slice(b" ")?;
    push_number(line, pair.row)?;
    push_position(line, &pair.start)?;
    push_position(line, &pair.end)?;
    Ok(())
}

/// Writes the line of a pair in place of what `line` held.
fn write_line(line: &mut Vec<u8>, scene: &Scene, pair: &Pair) -> Result<(), Memory>
    ensures value { OnOk result (line.new.items ≡ pair_line scene.now pair.now) }
    ensures one_line { OnOk result (Lacks 10 (pair_line scene.now pair.now)) }
{
    line.clear();
    line.extend_from_slice(b"overlap ")?;
    push_region(line, scene, pair.one)?;
    line.extend_from_slice(b" ")?;
    push_region(line, scene, pair.two)?;
    push_rays(line, pair)?;
    Ok(())
}

/// One line for each pair, in order: the places and the paths of its two regions, on how many rays they overlap, the first of
/// these rays, and where their overlap on it starts and ends. `Room` comes exactly where the lines have over `room` bytes,
/// their line feeds included.
pub fn overlap_text(
    alloc: Global,
    scene: &Scene,
    pairs: &[Pair],
    room: u64,
) -> Result<Body, TextFault>
    requires { room < 2 ^ 31 }
    ensures { IsText result (overlap_lines scene.now pairs.now) room }
{
    let mut body = Body::new(alloc);
    let mut line = Vec::new(alloc);
    let mut left = room;
    for pair in pairs {
        write_line(&mut line, scene, pair)?;
        left = push_line(&mut body, &line, left)?;
    }
    Ok(body)
}

/// How long the lines of regions that overlap are: more pairs than a report may have never have room. The function does
/// nothing: its contract is the law.
pub fn overlap_laws()
    ensures lines { LinesAreLong }
    ensures pairs { ManyPairsAreLong }
{}
