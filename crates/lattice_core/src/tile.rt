//! Tiles: the parts of a view, and the boxes of their rays.

ghost use Rattle.std.specs.Prelude.{◌≡◌, ◌↔◌, ◌<◌, ◌≤◌, ℕ, IsTrue};
ghost use Rattle.lattice_core.specs.declared.limit.TheConstants.{PICTURE_SIDE};
ghost use Rattle.lattice_core.specs.Boxes.{MeetsRay};
ghost use Rattle.lattice_core.specs.Views.{pixel_ray, IsChecked};
ghost use Rattle.lattice_core.specs.Tiles.{tiles_along, tiles_of, part_from, span_of, IsPartOf, IsTiled, IsIn, IsTileBox, MeetsTile};

use crate::boxes::{Box3, boxes_meet, hull, ray_box};
use crate::limit::TILE_SIDE;
use crate::view::View;

/// The pixels of a tile: its first column and row, and how many it has of both.
#[derive(Clone, Copy, Debug, PartialEq, Eq, Hash)]
pub struct TileSpan {
    pub column: u32,
    pub row: u32,
    pub w: u32,
    pub h: u32,
}

impl View {
    /// The number of tiles.
    pub fn tiles(&self) -> u32
        requires { IsChecked self.now }
        ensures count { result ≡ tiles_of self.now }
        ensures tiled { IsTiled self.now }
    {
        tiles_along(self.w) * tiles_along(self.h)
    }

    /// The pixels of a tile. Tiles are numbered from 0, row by row from the top left.
    pub fn span(&self, tile: u32) -> TileSpan
        requires view { IsChecked self.now }
        requires tile { tile < tiles_of self.now }
        ensures value { result ≡ span_of self.now tile }
        ensures part { IsPartOf result self.now }
    {
        let across = tiles_along(self.w);
        let column = tile % across * TILE_SIDE;
        let row = tile / across * TILE_SIDE;
        TileSpan {
            column,
            row,
            w: part_from(column, self.w),
            h: part_from(row, self.h),
        }
    }
}

fn tiles_along(side: u32) -> u32
    requires { side ≤ PICTURE_SIDE }
    ensures { result ≡ tiles_along side }
{
    (side + (TILE_SIDE - 1)) / TILE_SIDE
}

fn part_from(start: u32, side: u32) -> u32
    requires { start ≤ side }
    ensures { result ≡ part_from start side }
{
    TILE_SIDE.min(side - start)
}

/// The least box that has the rays of a tile's pixels.
pub fn tile_box(view: &View, tile: u32) -> Box3
    requires view { IsChecked view.now }
    requires tile { tile < tiles_of view.now }
    ensures { IsTileBox result view.now tile }
{
    let span = view.span(tile);
    let first = view.ray(span.column, span.row);
    let last = view.ray(span.column + (span.w - 1), span.row + (span.h - 1));
    hull(&ray_box(&first), &ray_box(&last))
}

/// Whether some point lies in the box and in the box of the tile's rays. Boxes that only touch share one.
pub fn box_meets_tile(b: &Box3, view: &View, tile: u32) -> bool
    requires view { IsChecked view.now }
    requires tile { tile < tiles_of view.now }
    ensures meets { IsTrue result ↔ MeetsTile b.now view.now tile }
    ensures ray { (column row : ℕ) → IsIn (span_of view.now tile) column row → MeetsRay b.now (pixel_ray view.now column row) → IsTrue result }
{
    boxes_meet(b, &tile_box(view, tile))
}
