//! Which regions the pixels of a view present.
ghost use Rattle.std.specs.Prelude.{◌≡◌, ◌<◌, IfOk};
ghost use Rattle.std.specs.Arc.{arc_value};
ghost use Rattle.lattice_core.specs.Views.{IsChecked};
ghost use Rattle.lattice_core.specs.Tiles.{span_of, tiles_of};
ghost use Rattle.area_tool.specs.Numbers.{IsCopied, IsOnePerPixel};
ghost use Rattle.area_tool.specs.Presented.{view_presents};

use crate::executor::{Executor, present_tiles};
use crate::present_job::{PresentJob, SharedPresents};
use area_tool::{copy_present, tile_laws};
use lattice_core::View;
use memory_core::Memory;
use outside_core::Gate;
use shot_core::Scene;
use std::alloc::Global;
use std::sync::Arc;
use std::thread::Threads;
use std::vec::Vec;

/// One number for each pixel of a view, each 0.
fn nothing(alloc: Global, view: &View) -> Result<Vec<u32>, Memory>
    requires { IsChecked view.now }
    ensures { IfOk result (λ all. IsOnePerPixel view.now.w view.now.h all.items) }
{
    Ok(vec![in alloc; 0; (view.w * view.h) as usize]?)
}

/// Puts what the pixels of a tile present into the list of its view.
fn put_presents(view: &View, tile: u32, shared: &SharedPresents, all: &mut Vec<u32>)
    requires view { IsChecked view.now }
    requires tile { tile < tiles_of view.now }
    requires shared { IsOnePerPixel (span_of view.now tile).w (span_of view.now tile).h (arc_value shared.now.named).presents }
    requires all { IsOnePerPixel view.now.w view.now.h all.old.items }
    ensures { IsCopied view.now tile (arc_value shared.now.named).presents all.old.items all.new.items }
{
    copy_present(view, tile, shared.presents(), all);
}

/// What each pixel of a view presents, row by row: the place of the region of the first partition on its ray whose region has no
/// air, and 0 where there is none. No tile is looked up or kept.
pub fn present_view<R: Threads + Sync, G: Gate + Sync>(
    executor: &Executor<R, G>,
    alloc: Global,
    scene: &Arc<Scene>,
    view: &View,
) -> Result<Vec<u32>, Memory>
    requires { IsChecked view.now }
    ensures { IfOk result (λ all. all.items ≡ view_presents (arc_value scene.now) view.now) }
{
    tile_laws();
    let job = PresentJob {
        scene: scene.clone()?,
        view: *view,
    };
    let shots = present_tiles(executor, alloc, &job)?;
    let mut all = nothing(alloc, view)?;
    for tile in 0..view.tiles() {
        put_presents(view, tile, &shots[tile as usize], &mut all);
    }
    Ok(all)
}
