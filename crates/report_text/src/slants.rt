//! The lines of what a ray in a lattice direction meets.
ghost use Rattle.std.specs.Prelude.{◌≡◌, ◌<◌, ◌^◌, ◌++◌, All, IfOk, OnOk, length, codes};
ghost use Rattle.surd_quot.specs.Text.{quotient_text};
ghost use Rattle.transcript.specs.Lines.{Lacks};
ghost use Rattle.report_text.specs.Slants.{slab_line, slant_lines, LinesAlongAxes};
ghost use Rattle.report_text.specs.Texts.{IsText};

use crate::fault::TextFault;
use crate::lines::{push_line, push_number};
use memory_core::Memory;
use oblique_ray::Slab;
use shot_core::{Scene, SceneRegion};
use std::alloc::Global;
use surd_quot::{QPos, QPosText};
use transcript::Body;

/// Puts a blank and a position at the end of a line.
fn push_quotient(line: &mut Vec<u8>, place: &QPos) -> Result<(), Memory>
    ensures { OnOk result (line.new.items ≡ line.old.items ++ (codes " " ++ quotient_text place.now)) }
{
    let mut text = QPosText::new();
    place.write_text(&mut text);
    line.extend_from_slice(b" ")?;
    line.extend_from_slice(text.bytes())?;
    Ok(())
}

/// The line of a part of a ray: the place and the path of its region, and where it starts and ends.
fn line_of(alloc: Global, region: &SceneRegion, slab: &Slab) -> Result<Vec<u8>, Memory>
    ensures value { IfOk result (λ line. line.items ≡ slab_line region.now slab.now) }
    ensures one_line { IfOk result (λ _. Lacks 10 (slab_line region.now slab.now)) }
{
    let mut line = Vec::new(alloc);
    push_number(&mut line, region.place())?;
    line.extend_from_slice(b" ")?;
    line.extend_from_slice(region.path().items())?;
    push_quotient(&mut line, &slab.start)?;
    push_quotient(&mut line, &slab.end)?;
    Ok(line)
}

/// One line for each part of a ray in a lattice direction, in order: the place of its region in the scene, the region's path, and
/// where the part starts and ends, in steps of the direction. `Room` comes exactly where the lines have over `room` bytes, their
/// line feeds included.
pub fn slant_text(
    alloc: Global,
    scene: &Scene,
    slabs: &[Slab],
    room: u64,
) -> Result<Body, TextFault>
    requires regions { All (λ s. s.region < length scene.now) slabs.now }
    requires room { room < 2 ^ 31 }
    ensures { IsText result (slant_lines scene.now slabs.now) room }
{
    let mut body = Body::new(alloc);
    let mut left = room;
    for slab in slabs {
        let region = &scene.regions()[slab.region as usize];
        let line = line_of(alloc, region, slab)?;
        left = push_line(&mut body, &line, left)?;
    }
    Ok(body)
}

/// Along an axis the lines are those of the plain ray. The function does nothing: its contract is the law.
pub fn slant_laws()
    ensures { LinesAlongAxes }
{}
