//! The lines of what a ray meets, of scenes whose regions have no solids and stand at given places.

ghost use Rattle.std.specs.Prelude.{◌<◌, ◌≤◌, IfOk, IsTrue, All, length};
ghost use Rattle.shot_core.specs.Regions.{IsPathText, IsScene};

use crate::positions::read_position;
use crate::texts::{
    items_of, number_in, number_of, put_number, three_fields, three_words, two_words,
};
use bool_weave::{MaskNode, MaskTree};
use case_text::{CaseFault, Shown};
use item_list::Items;
use overlap_list::Hit;
use region_attr::Rgb;
use report_text::{TextFault, shot_text};
use shot_core::{Lit, PathText, PrepRegion, Scene, SceneRegion};
use std::alloc::Global;
use std::sync::Arc;

/// Whether a text can be a path.
fn is_path(text: &[u8]) -> bool
    ensures { IsTrue result → IsPathText text.now }
{
    text.iter().all(|byte| *byte != b'\n')
}

fn path_of(alloc: Global, text: &[u8]) -> Result<PathText, CaseFault>
    ensures { IfOk result IsPathText }
{
    if !is_path(text) {
        return Err(CaseFault::Line);
    }
    Ok(Items::of_vec(Vec::from_slice(alloc, text)?))
}

/// The body of a region that is nowhere.
fn no_body(alloc: Global) -> Result<PrepRegion, CaseFault> {
    let mut nodes = Vec::new(alloc);
    nodes.push(MaskNode::Never)?;
    let tree = MaskTree::of_nodes(nodes);
    let rgb = Rgb { r: 1, g: 2, b: 3 };
    Ok(PrepRegion::new(alloc, 1000, 0, rgb, tree, Vec::new(alloc))?)
}

/// The region of `PLACE PATH`.
fn region_of(alloc: Global, item: &[u8]) -> Result<SceneRegion, CaseFault> {
    let (place, path) = two_words(alloc, item)?;
    let place = number_in(place)?;
    let path = Arc::new(alloc, path_of(alloc, path)?)?;
    let body = Arc::new(alloc, no_body(alloc)?)?;
    Ok(SceneRegion::new(place, path, body))
}

/// Whether the places rise from at least 1, and there are few leaves and solids.
fn is_scene(regions: &[SceneRegion]) -> bool
    ensures { IsTrue result → IsScene regions.now }
{
    let mut last = 0;
    let mut size = 0;
    let mut count = 0;
    for region in regions {
        if region.place() <= last {
            return false;
        }
        last = region.place();
        size += region.body().size() as u64;
        count += region.body().solids().len() as u64;
        if size > 65_536 || count > 65_536 {
            return false;
        }
    }
    true
}

fn scene_of(alloc: Global, list: &[u8]) -> Result<Scene, CaseFault> {
    let mut regions = Vec::new(alloc);
    for item in items_of(alloc, list)? {
        regions.push(region_of(alloc, item)?)?;
    }
    if !is_scene(&regions) {
        return Err(CaseFault::Number);
    }
    Ok(Scene::new(alloc, regions)?)
}

/// The part of a ray of `REGION START END`, REGION being counted from 0. Its hit and its level are not printed.
fn lit_of(alloc: Global, item: &[u8]) -> Result<Lit, CaseFault> {
    let (region, start, end) = three_words(alloc, item)?;
    Ok(Lit {
        region: number_in(region)?,
        start: read_position(start)?,
        end: read_position(end)?,
        hit: Hit {
            instance: 0,
            face: 1,
        },
        level: 255,
    })
}

fn all_lit_of(alloc: Global, list: &[u8]) -> Result<Vec<Lit>, CaseFault> {
    let mut lit = Vec::new(alloc);
    for item in items_of(alloc, list)? {
        lit.push(lit_of(alloc, item)?)?;
    }
    Ok(lit)
}

/// Whether all parts are of the first regions, so many.
fn are_below(lit: &[Lit], count: usize) -> bool
    ensures { IsTrue result → All (λ l. l.region < count) lit.now }
{
    lit.iter().all(|one| (one.region as usize) < count)
}

/// Puts in the lines of parts of a ray.
fn put_report(
    alloc: Global,
    scene: &Scene,
    lit: &[Lit],
    room: u32,
    out: &mut Shown,
) -> Result<(), CaseFault> {
    if !are_below(lit, scene.regions().len()) || room > 1_000_000 {
        return Err(CaseFault::Number);
    }
    match shot_text(alloc, scene, lit, u64::from(room)) {
        Ok(body) => {
            put_number(out, b"", body.lines() as u64);
            out.put(b" lines\n");
            out.put(body.text());
        }
        Err(TextFault::Room) => out.put(b"no room"),
        Err(TextFault::Memory) => return Err(CaseFault::Memory),
    }
    Ok(())
}

/// `report ROOM | PLACE PATH, .. | REGION START END, .. => COUNT lines`, a line feed and the text, or `no room`
pub fn answer_report(alloc: Global, given: &[u8], out: &mut Shown) -> Result<(), CaseFault> {
    let (room, places, list) = three_fields(given)?;
    let room = number_of(alloc, room)?;
    let scene = scene_of(alloc, places)?;
    let lit = all_lit_of(alloc, list)?;
    put_report(alloc, &scene, &lit, room, out)
}
