ghost use Rattle.std.specs.Prelude.{◌≡◌, ◌<◌, ◌^◌, All, IfOk, length};
ghost use Rattle.transcript.specs.Lines.{Lacks};
ghost use Rattle.report_text.specs.Shots.{part_line, shot_lines};
ghost use Rattle.report_text.specs.Texts.{IsText};

use crate::fault::TextFault;
use crate::lines::{push_line, push_number, push_position};
use memory_core::Memory;
use shot_core::{Lit, Scene, SceneRegion};
use std::alloc::Global;
use transcript::Body;

/// The line of a part of a ray: the place and the path of its region, and where it starts and ends.
fn line_of(alloc: Global, region: &SceneRegion, lit: &Lit) -> Result<Vec<u8>, Memory>
    ensures value { IfOk result (λ line. line.items ≡ part_line region.now lit.now) }
    ensures one_line { IfOk result (λ _. Lacks 10 (part_line region.now lit.now)) }
{
    let mut line = Vec::new(alloc);
    push_number(&mut line, region.place())?;
    line.extend_from_slice(b" ")?;
    line.extend_from_slice(region.path().items())?;
    push_position(&mut line, &lit.start)?;
    push_position(&mut line, &lit.end)?;
    Ok(line)
}

/// One line for each part of a ray, in order: the place of its region in the scene, the region's path, and where the part
/// starts and ends. `Room` comes exactly where the lines have over `room` bytes, their line feeds included.
pub fn shot_text(alloc: Global, scene: &Scene, lit: &[Lit], room: u64) -> Result<Body, TextFault>
    requires regions { All (λ l. l.region < length scene.now) lit.now }
    requires room { room < 2 ^ 31 }
    ensures { IsText result (shot_lines scene.now lit.now) room }
{
    let mut body = Body::new(alloc);
    let mut left = room;
    for part in lit {
        let region = &scene.regions()[part.region as usize];
        let line = line_of(alloc, region, part)?;
        left = push_line(&mut body, &line, left)?;
    }
    Ok(body)
}
