//! The planes of the faces and of the box of eight vertices, and what is wrong with vertices.

ghost use Rattle.std.specs.Prelude.{◌≡◌, ◌≤◌, All, IfSome, Some, None};
ghost use Rattle.std.specs.Option.{ForSome};
ghost use Rattle.lattice_core.specs.declared.limit.TheConstants.{COORD};
ghost use Rattle.lattice_core.specs.Limits.{IsWithin, IsAtMost};
ghost use Rattle.plane_geom.specs.Planes.{IsSolidPlane};
ghost use Rattle.prim_arb8.specs.Faces.{corners_of, plane_of_four, face_plane, reversed, outward, outward_face, box_plane, plane_at, first_fault, face_cases, cases_of, vertex_at};

use crate::corner::{are_all_in, is_any_before, is_any_beyond, is_flat};
use lattice_core::{Dir, V3};
use plane_geom::{Plane, ShapeFault};

/// The four vertices of a face from 1 to 6.
fn corners(v: &[V3; 8], face: u8) -> [V3; 4]
    requires face { (1 ≤ face) × (face ≤ 6) }
    requires size { All (IsWithin COORD) v.now }
    ensures value { result ≡ corners_of v.now face }
    ensures size { All (IsWithin COORD) result }
{
    match face {
        1 => [v[0], v[1], v[2], v[3]],
        2 => [v[4], v[5], v[6], v[7]],
        3 => [v[0], v[1], v[5], v[4]],
        4 => [v[1], v[2], v[6], v[5]],
        5 => [v[2], v[3], v[7], v[6]],
        _ => [v[3], v[0], v[4], v[7]],
    }
}

/// The plane through the first three points that are not on one line, or `None` where all four are.
fn plane_of_four(a: V3, b: V3, c: V3, d: V3) -> Option<Plane>
    requires first { IsWithin COORD a }
    requires second { IsWithin COORD b }
    requires third { IsWithin COORD c }
    requires fourth { IsWithin COORD d }
    ensures value { result ≡ plane_of_four a b c d }
    ensures size { IfSome result IsSolidPlane }
{
    if let Some(plane) = Plane::through(a, b, c) {
        return Some(plane);
    }
    if let Some(plane) = Plane::through(a, b, d) {
        return Some(plane);
    }
    if let Some(plane) = Plane::through(a, c, d) {
        return Some(plane);
    }
    Plane::through(b, c, d)
}

fn face_plane(corners: &[V3; 4]) -> Option<Plane>
    requires { All (IsWithin COORD) corners.now }
    ensures value { result ≡ face_plane corners.now }
    ensures size { IfSome result IsSolidPlane }
{
    plane_of_four(corners[0], corners[1], corners[2], corners[3])
}

/// The plane with its other side out.
fn reversed(plane: Plane) -> Plane
    requires { IsSolidPlane plane }
    ensures value { result ≡ reversed plane }
    ensures size { IsSolidPlane result }
{
    Plane {
        n: V3 {
            x: -plane.n.x,
            y: -plane.n.y,
            z: -plane.n.z,
        },
        d: -plane.d,
    }
}

fn outward(v: &[V3; 8], plane: Plane) -> Plane
    requires { IsSolidPlane plane }
    ensures value { result ≡ outward v.now plane }
    ensures size { IsSolidPlane result }
{
    if is_any_beyond(&plane, v) {
        reversed(plane)
    } else {
        plane
    }
}

fn outward_face(v: &[V3; 8], face: u8) -> Option<Plane>
    requires face { (1 ≤ face) × (face ≤ 6) }
    requires size { All (IsWithin COORD) v.now }
    ensures value { result ≡ outward_face v.now face }
    ensures size { IfSome result IsSolidPlane }
{
    match face_plane(&corners(v, face)) {
        Some(plane) => Some(outward(v, plane)),
        None => None,
    }
}

/// How far the vertices reach in a direction.
fn greatest(v: &[V3; 8], dir: Dir) -> i64
    requires { All (IsWithin COORD) v.now }
    ensures value { result ≡ (box_plane v.now dir).d }
    ensures size { IsAtMost COORD result }
{
    let mut most = v[0].along(dir);
    for p in v {
        most = most.max(p.along(dir));
    }
    most
}

fn box_plane(v: &[V3; 8], dir: Dir) -> Plane
    requires { All (IsWithin COORD) v.now }
    ensures value { result ≡ box_plane v.now dir }
    ensures size { IsSolidPlane result }
{
    Plane {
        n: dir.unit(),
        d: i128::from(greatest(v, dir)),
    }
}

/// The outward plane of a face from 1 to 12, or `None` where the face is degenerate.
pub fn plane_of(v: &[V3; 8], face: u8) -> Option<Plane>
    requires face { (1 ≤ face) × (face ≤ 12) }
    requires size { All (IsWithin COORD) v.now }
    ensures value { result ≡ plane_at v.now face }
    ensures size { ForSome result IsSolidPlane }
{
    match face {
        1 => outward_face(v, 1),
        2 => outward_face(v, 2),
        3 => outward_face(v, 3),
        4 => outward_face(v, 4),
        5 => outward_face(v, 5),
        6 => outward_face(v, 6),
        7 => Some(box_plane(v, Dir::PlusX)),
        8 => Some(box_plane(v, Dir::MinusX)),
        9 => Some(box_plane(v, Dir::PlusY)),
        10 => Some(box_plane(v, Dir::MinusY)),
        11 => Some(box_plane(v, Dir::PlusZ)),
        _ => Some(box_plane(v, Dir::MinusZ)),
    }
}

/// The first fault of a face, or `None` where it has none.
fn face_fault(v: &[V3; 8], face: u8) -> Option<ShapeFault>
    requires face { (1 ≤ face) × (face ≤ 6) }
    requires size { All (IsWithin COORD) v.now }
    ensures { result ≡ first_fault (face_cases v.now face) }
{
    let corners = corners(v, face);
    let Some(plane) = face_plane(&corners) else {
        return None;
    };
    if !are_all_in(&plane, &corners) {
        return Some(ShapeFault::NotPlanar(face));
    }
    if is_any_beyond(&plane, v) && is_any_before(&plane, v) {
        return Some(ShapeFault::NotConvex(face));
    }
    None
}

/// The first fault of the vertices, or `None` where they have none.
pub fn fault_of(v: &[V3; 8]) -> Option<ShapeFault>
    requires { All (IsWithin COORD) v.now }
    ensures { result ≡ first_fault (cases_of v.now) }
{
    if is_flat(v) {
        return Some(ShapeFault::Flat);
    }
    for face in 1..7 {
        if let Some(fault) = face_fault(v, face) {
            return Some(fault);
        }
    }
    None
}
