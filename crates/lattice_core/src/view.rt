//! Views: rectangles of pixels, each of which has a ray of its own.

ghost use Rattle.std.specs.Prelude.{◌≡◌, ◌↔◌, ◌<◌, ◌≤◌, ◌-◌, ◌*ℤ◌, ◌≤ℤ◌, pos, IsOk};
ghost use Rattle.lattice_core.specs.declared.limit.TheConstants.{WORLD, PICTURE_SIDE, VIEW_NUMBER, VIEW_REACH};
ghost use Rattle.lattice_core.specs.Limits.{IsUnder, IsAtMost, IsWithin};
ghost use Rattle.lattice_core.specs.Views.{point_from, pixel_ray, IsFirstFault, fault_order, IsChecked, view_fault, answer_of, has_no_pixels, has_long_side, leaves_world};

use crate::limit::{PICTURE_SIDE, WORLD};
use crate::ray::{Dir, Ray};
use crate::vector::V3;
use thiserror::Error;

/// A rectangle of `w` columns and `h` rows of pixels. The ray of the pixel at the top left starts at the corner, each
/// further column one cell across and each further row one cell down. All rays go in the view's direction.
#[derive(Clone, Copy, Debug, PartialEq, Eq, Hash)]
pub struct View {
    /// Where the ray of the pixel at the top left starts, in tenths of a millimetre.
    pub corner: V3,
    pub dir: Dir,
    /// How far the rays of neighbouring pixels are apart, in tenths of a millimetre.
    pub cell: i64,
    pub w: u32,
    pub h: u32,
}

/// Why a view is refused. The first that holds is answered, in this order.
#[derive(Clone, Copy, Debug, PartialEq, Eq, Error)]
pub enum ViewFault {
    /// It has no column or no row.
    #[error("view without pixels")]
    Pixels,
    /// It has over `PICTURE_SIDE` columns or rows.
    #[error("view of over 2048 columns or rows")]
    Side,
    /// Its cell is less than a tenth of a millimetre.
    #[error("cell below 1")]
    Cell,
    /// Its direction is no primitive whole vector. The six directions of a view all are, so no view has this fault: it is
    /// for single rays that go in other directions.
    #[error("direction that is no primitive vector")]
    Direction,
    /// The ray of one of its pixels starts outside the world: a coordinate of its origin is over `WORLD` in size.
    #[error("ray outside the world")]
    World,
}

impl View {
    /// Whether all its rays are rays of the world, and else the first fault.
    pub fn check(&self) -> Result<(), ViewFault>
        requires corner { IsWithin VIEW_NUMBER self.now.corner }
        requires cell { IsAtMost VIEW_NUMBER self.now.cell }
        ensures fault { IsFirstFault self.now fault_order result }
        ensures checked { IsOk result ↔ IsChecked self.now }
        ensures value { result ≡ answer_of (view_fault self.now) }
    {
        if self.has_no_pixels() {
            return Err(ViewFault::Pixels);
        }
        if self.has_long_side() {
            return Err(ViewFault::Side);
        }
        if self.cell < 1 {
            return Err(ViewFault::Cell);
        }
        if self.leaves_world() {
            return Err(ViewFault::World);
        }
        Ok(())
    }

    /// The ray of the pixel in a column and a row, both counted from 0 at the top left.
    pub fn ray(&self, column: u32, row: u32) -> Ray
        requires view { IsChecked self.now }
        requires column { column < self.now.w }
        requires row { row < self.now.h }
        ensures value { result ≡ pixel_ray self.now column row }
        ensures origin { IsWithin WORLD result.origin }
    {
        Ray {
            origin: self.origin(column, row),
            dir: self.dir,
        }
    }

    fn has_no_pixels(&self) -> bool
        ensures { result ≡ has_no_pixels self.now }
    {
        self.w == 0 || self.h == 0
    }

    fn has_long_side(&self) -> bool
        ensures { result ≡ has_long_side self.now }
    {
        PICTURE_SIDE < self.w || PICTURE_SIDE < self.h
    }

    /// Whether some ray starts outside the world. No ray starts further out than the first or the last does.
    fn leaves_world(&self) -> bool
        requires corner { IsWithin VIEW_NUMBER self.now.corner }
        requires cell { (pos 1 ≤ℤ self.now.cell) × (self.now.cell ≤ℤ VIEW_NUMBER) }
        requires columns { (1 ≤ self.now.w) × (self.now.w ≤ PICTURE_SIDE) }
        requires rows { (1 ≤ self.now.h) × (self.now.h ≤ PICTURE_SIDE) }
        ensures { result ≡ leaves_world self.now }
    {
        if !self.corner.is_within(WORLD) {
            return true;
        }
        !self.origin(self.w - 1, self.h - 1).is_within(WORLD)
    }

    fn origin(&self, column: u32, row: u32) -> V3
        requires corner { IsWithin VIEW_NUMBER self.now.corner }
        requires across { IsUnder VIEW_REACH (pos column *ℤ self.now.cell) }
        requires down { IsUnder VIEW_REACH (pos row *ℤ self.now.cell) }
        ensures { result ≡ (pixel_ray self.now column row).origin }
    {
        point_from(
            self.corner,
            self.dir,
            i64::from(column) * self.cell,
            i64::from(row) * self.cell,
        )
    }
}

/// The point so far across and so far down from a view's corner.
fn point_from(corner: V3, dir: Dir, across: i64, down: i64) -> V3
    requires corner { IsWithin VIEW_NUMBER corner }
    requires across { IsUnder VIEW_REACH across }
    requires down { IsUnder VIEW_REACH down }
    ensures { result ≡ point_from corner dir across down }
{
    let right = dir.across().times(across);
    let below = dir.down().times(down);
    corner.plus(right.plus(below))
}
