//! Where vertices lie against planes.

ghost use Rattle.std.specs.Prelude.{◌≡◌, ◌≤◌, All};
ghost use Rattle.std.specs.List.{list_all, list_any};
ghost use Rattle.lattice_core.specs.declared.limit.TheConstants.{COORD};
ghost use Rattle.lattice_core.specs.Limits.{IsWithin};
ghost use Rattle.plane_geom.specs.Planes.{IsSolidPlane, plane_through};
ghost use Rattle.prim_arb8.specs.Points.{lies_in, lies_beyond, lies_before, are_all_in, are_coplanar_with, are_coplanar_from, is_flat};

use lattice_core::V3;
use plane_geom::Plane;

fn lies_in(plane: &Plane, p: V3) -> bool
    requires { IsSolidPlane plane.now }
    ensures { result ≡ lies_in plane.now p }
{
    plane.height(p) == 0
}

/// Whether all points lie in the plane.
pub fn are_all_in(plane: &Plane, points: &[V3]) -> bool
    requires { IsSolidPlane plane.now }
    ensures { result ≡ list_all (lies_in plane.now) points.now }
{
    points.iter().all(|p| lies_in(plane, *p))
}

/// Whether some point lies strictly beyond the plane.
pub fn is_any_beyond(plane: &Plane, points: &[V3]) -> bool
    requires { IsSolidPlane plane.now }
    ensures { result ≡ list_any (lies_beyond plane.now) points.now }
{
    points.iter().any(|p| plane.height(*p) > 0)
}

/// Whether some point lies strictly before the plane.
pub fn is_any_before(plane: &Plane, points: &[V3]) -> bool
    requires { IsSolidPlane plane.now }
    ensures { result ≡ list_any (lies_before plane.now) points.now }
{
    points.iter().any(|p| plane.height(*p) < 0)
}

/// Whether every point lies in one plane with the three.
fn are_in_plane(a: V3, b: V3, c: V3, points: &[V3]) -> bool
    requires first { IsWithin COORD a }
    requires second { IsWithin COORD b }
    requires third { IsWithin COORD c }
    ensures { result ≡ are_all_in (plane_through a b c) points.now }
{
    match Plane::through(a, b, c) {
        Some(plane) => are_all_in(&plane, points),
        None => true,
    }
}

fn are_in_planes_with(a: V3, b: V3, points: &[V3]) -> bool
    requires first { IsWithin COORD a }
    requires second { IsWithin COORD b }
    requires points { All (IsWithin COORD) points.now }
    ensures { result ≡ are_coplanar_with a b points.now }
{
    points.iter().all(|c| are_in_plane(a, b, *c, points))
}

fn are_in_planes_from(a: V3, points: &[V3]) -> bool
    requires first { IsWithin COORD a }
    requires points { All (IsWithin COORD) points.now }
    ensures { result ≡ are_coplanar_from a points.now }
{
    points.iter().all(|b| are_in_planes_with(a, *b, points))
}

/// Whether all points lie in one plane.
pub fn is_flat(points: &[V3]) -> bool
    requires { All (IsWithin COORD) points.now }
    ensures { result ≡ is_flat points.now }
{
    points.iter().all(|a| are_in_planes_from(*a, points))
}
