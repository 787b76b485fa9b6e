//! Which regions the pixels of a tile present.

ghost use Rattle.std.specs.Prelude.{◌≡◌, ◌<◌, ◌+◌, ◌++◌, IfOk, IfSome, length};
ghost use Rattle.lattice_core.specs.declared.limit.TheConstants.{WORLD};
ghost use Rattle.lattice_core.specs.Limits.{IsWithin};
ghost use Rattle.lattice_core.specs.Views.{IsChecked};
ghost use Rattle.lattice_core.specs.Tiles.{tiles_of, span_of, IsPartOf};
ghost use Rattle.shot_core.specs.FirstShots.{IsOrderOf};
ghost use Rattle.area_tool.specs.Numbers.{row_numbers, block_numbers, IsOnePerPixel};
ghost use Rattle.area_tool.specs.Presented.{presented, presented_in, tile_presents, seen_place};

use first_hit::{Scratch, near_order, shoot_first};
use lattice_core::{Ray, TileSpan, View};
use memory_core::Memory;
use shot_core::{Scene, Seen};
use std::alloc::Global;

/// The place of the region that a ray met, and 0 where it met none.
fn place_of(scene: &Scene, seen: Option<Seen>) -> u32
    requires { IfSome seen (λ s. s.region < length scene.now) }
    ensures { result ≡ seen_place scene.now seen }
{
    match seen {
        Some(seen) => scene.regions()[seen.region as usize].place(),
        None => 0,
    }
}

/// The place of the region that a ray presents, and 0 where it presents none.
fn presented(scene: &Scene, order: &[u32], ray: &Ray, scratch: &mut Scratch) -> Result<u32, Memory>
    requires order { IsOrderOf (length scene.now) order.now }
    requires origin { IsWithin WORLD ray.now.origin }
    ensures { IfOk result (λ place. place ≡ presented scene.now ray.now) }
{
    let seen = shoot_first(scene, order, ray, scratch)?;
    Ok(place_of(scene, seen))
}

/// Puts what the pixels of a row of a span present at the end of a list.
fn push_row(
    part: &mut Vec<u32>,
    scene: &Scene,
    order: &[u32],
    view: &View,
    span: TileSpan,
    row: u32,
    scratch: &mut Scratch,
) -> Result<(), Memory>
    requires order { IsOrderOf (length scene.now) order.now }
    requires view { IsChecked view.now }
    requires span { IsPartOf span view.now }
    requires row { row < view.now.h }
    ensures { IfOk result (λ _. part.new.items ≡ part.old.items ++ row_numbers (presented_in scene.now view.now) span.column span.w row) }
{
    for across in 0..span.w {
        let ray = view.ray(span.column + across, row);
        let place = presented(scene, order, &ray, scratch)?;
        part.push(place)?;
    }
    Ok(())
}

/// What the pixels of a span present, row by row.
fn span_presents(
    alloc: Global,
    scene: &Scene,
    order: &[u32],
    view: &View,
    span: TileSpan,
) -> Result<Vec<u32>, Memory>
    requires order { IsOrderOf (length scene.now) order.now }
    requires view { IsChecked view.now }
    requires span { IsPartOf span view.now }
    ensures { IfOk result (λ part. part.items ≡ block_numbers (presented_in scene.now view.now) span) }
{
    let mut scratch = Scratch::new(alloc);
    let mut part = Vec::with_capacity(alloc, (span.w * span.h) as usize)?;
    for down in 0..span.h {
        let row = span.row + down;
        push_row(&mut part, scene, order, view, span, row, &mut scratch)?;
    }
    Ok(part)
}

/// What each pixel of a tile presents, row by row: the place of the region of the first partition on its ray whose region has no
/// air, and 0 where there is none. The scene may be that of all regions or the one of the regions that are kept for the tile:
/// both give the same list. `Memory` where there is none for the list or for what a ray meets.
pub fn present_tile(
    alloc: Global,
    scene: &Scene,
    view: &View,
    tile: u32,
) -> Result<Vec<u32>, Memory>
    requires view { IsChecked view.now }
    requires tile { tile < tiles_of view.now }
    ensures presented { IfOk result (λ part. part.items ≡ tile_presents scene.now view.now tile) }
    ensures size { IfOk result (λ part. IsOnePerPixel (span_of view.now tile).w (span_of view.now tile).h part.items) }
{
    let order = near_order(alloc, scene, view.dir)?;
    span_presents(alloc, scene, &order, view, view.span(tile))
}
