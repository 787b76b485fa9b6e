//! The box of the vertices of a placed solid.

ghost use Rattle.std.specs.Prelude.{◌≡◌, All};
ghost use Rattle.lattice_core.specs.declared.limit.TheConstants.{COORD, PLACED, SHIFT};
ghost use Rattle.lattice_core.specs.Limits.{IsAtMost, IsWithin};
ghost use Rattle.lattice_core.specs.Placements.{placed};
ghost use Rattle.prim_arb8.specs.Bounds.{HoldsVertices, box_of, extent_along, farthest, reach_of};

use lattice_core::{Box3, Dir, Extent, Placement, V3};

/// Where the placement takes a vertex.
fn placed_point(p: V3, by: &Placement) -> V3
    requires point { IsWithin COORD p }
    requires shift { IsWithin SHIFT by.now.shift }
    ensures value { result ≡ placed by.now p }
    ensures size { IsWithin PLACED result }
{
    by.place(p)
}

/// How far a vertex that is placed lies in a direction.
fn placed_reach(p: V3, by: &Placement, dir: Dir) -> i64
    requires point { IsWithin COORD p }
    requires shift { IsWithin SHIFT by.now.shift }
    ensures value { result ≡ reach_of by.now dir p }
    ensures size { IsAtMost PLACED result }
{
    placed_point(p, by).along(dir)
}

/// How far the vertices that are placed reach in a direction.
fn farthest(v: &[V3; 8], by: &Placement, dir: Dir) -> i64
    requires points { All (IsWithin COORD) v.now }
    requires shift { IsWithin SHIFT by.now.shift }
    ensures value { result ≡ farthest by.now v.now dir }
    ensures size { IsAtMost PLACED result }
{
    let mut most = placed_reach(v[0], by, dir);
    for p in v {
        most = most.max(placed_reach(*p, by, dir));
    }
    most
}

/// How far the vertices that are placed reach along an axis, of which these are the directions down and up.
fn extent_along(v: &[V3; 8], by: &Placement, down: Dir, up: Dir) -> Extent
    requires points { All (IsWithin COORD) v.now }
    requires shift { IsWithin SHIFT by.now.shift }
    ensures { result ≡ extent_along by.now v.now down up }
{
    Extent::between(-farthest(v, by, down), farthest(v, by, up))
}

/// The least box that holds the vertices where they are placed.
pub fn bounds_at(v: &[V3; 8], by: &Placement) -> Box3
    requires points { All (IsWithin COORD) v.now }
    requires shift { IsWithin SHIFT by.now.shift }
    ensures value { result ≡ box_of by.now v.now }
    ensures holds { HoldsVertices result by.now v.now }
{
    Box3::Span {
        x: extent_along(v, by, Dir::MinusX, Dir::PlusX),
        y: extent_along(v, by, Dir::MinusY, Dir::PlusY),
        z: extent_along(v, by, Dir::MinusZ, Dir::PlusZ),
    }
}
