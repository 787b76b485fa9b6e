//! The lines of how many pixels present each region.
ghost use Rattle.std.specs.Prelude.{◌≡◌, ◌≤◌, ◌<◌, ◌+◌, ◌-◌, ◌^◌, ◌++◌, IfOk, OnOk, length, decimal, slice_index_or};
ghost use Rattle.transcript.specs.Lines.{Lacks};
ghost use Rattle.report_text.specs.Areas.{area_line, area_lines, line_if};
ghost use Rattle.report_text.specs.Steps.{IsPushed};
ghost use Rattle.report_text.specs.Texts.{IsText};

use crate::fault::TextFault;
use crate::lines::{push_number, push_one};
use fixed_text::FixedText;
use memory_core::Memory;
use shot_core::{Scene, SceneRegion};
use std::alloc::Global;
use transcript::Body;

/// The digits of a count.
type CountText = FixedText<24>;

/// The count of a place, from 1; 0 where the list is shorter.
fn area_at(areas: &[u64], place: u32) -> u64
    requires { 1 ≤ place }
    ensures { result ≡ slice_index_or areas.now (place - 1) 0 }
{
    areas.get(place as usize - 1).copied().unwrap_or(0)
}

/// Puts the digits of a count at the end of a line.
fn push_count(line: &mut Vec<u8>, count: u64) -> Result<(), Memory>
    ensures { OnOk result (line.new.items ≡ line.old.items ++ decimal count) }
{
    let mut text = CountText::new();
    text.push_number(count);
    line.extend_from_slice(text.bytes())?;
    Ok(())
}

/// The line of a region: its place and its path, and how many pixels present it.
fn line_of(alloc: Global, region: &SceneRegion, pixels: u64) -> Result<Vec<u8>, Memory>
    ensures value { IfOk result (λ line. line.items ≡ area_line region.now pixels) }
    ensures one_line { IfOk result (λ _. Lacks 10 (area_line region.now pixels)) }
{
    let mut line = Vec::new(alloc);
    line.extend_from_slice(b"area ")?;
    push_number(&mut line, region.place())?;
    line.extend_from_slice(b" ")?;
    line.extend_from_slice(region.path().items())?;
    line.extend_from_slice(b" ")?;
    push_count(&mut line, pixels)?;
    Ok(line)
}

/// Puts the line of a region at the end, where some pixel presents it.
fn push_area(
    alloc: Global,
    region: &SceneRegion,
    pixels: u64,
    body: &mut Body,
    room: u64,
) -> Result<u64, TextFault>
    requires { length body.old + room < 2 ^ 31 }
    ensures { IsPushed result body.old body.new (line_if region.now pixels) room }
{
    if pixels == 0 {
        return Ok(room);
    }
    let line = line_of(alloc, region, pixels)?;
    push_one(body, &line, room)
}

/// One line for each region that some pixel presents, by place: the region's place and path, and how many pixels present it.
/// `areas` has how many do, by place from 1; a region of a place behind them has none. `Room` comes exactly where the lines have
/// over `room` bytes, their line feeds included.
pub fn area_text(alloc: Global, scene: &Scene, areas: &[u64], room: u64) -> Result<Body, TextFault>
    requires { room < 2 ^ 31 }
    ensures { IsText result (area_lines scene.now (λ place. slice_index_or areas.now (place - 1) 0)) room }
{
    let mut body = Body::new(alloc);
    let mut left = room;
    for region in scene.regions() {
        let pixels = area_at(areas, region.place());
        left = push_area(alloc, region, pixels, &mut body, left)?;
    }
    Ok(body)
}
