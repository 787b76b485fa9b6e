//! Rows of planes.

ghost use Rattle.plane_geom.specs.Planes.{IsSolidPlane, IsWorldPlane};

use crate::geometry::shown::put_point;
use crate::geometry::words::Words;
use case_text::{CaseFault, Shown};
use lattice_core::{COORD, WORLD};
use plane_geom::{Crossing, NORMAL, Plane};

/// The plane that a word `X,Y,Z:D` is: its normal, and the number that `normal · p` does not pass.
fn plane(words: &mut Words) -> Plane
    ensures solid { IsSolidPlane result }
    ensures world { IsWorldPlane result }
{
    let word = words.next();
    let (normal, offset) = words.halves(word, b':');
    let n = words.point_in(normal, NORMAL);
    let d = words.whole_in(offset, NORMAL);
    Plane {
        n,
        d: i128::from(d),
    }
}

/// Puts in a plane as rows have it.
pub fn put_plane(plane: &Plane, out: &mut Shown) {
    put_point(plane.n, out);
    out.put_byte(b':');
    out.put_number(plane.d);
}

/// Puts in a plane, or `none`.
pub fn put_plane_or_none(plane: Option<Plane>, out: &mut Shown) {
    match plane {
        Some(plane) => put_plane(&plane, out),
        None => out.put(b"none"),
    }
}

/// `through POINT POINT POINT => PLANE` or `none`
pub fn answer_through(words: &mut Words, out: &mut Shown) {
    let a = words.point(COORD);
    let b = words.point(COORD);
    let c = words.point(COORD);
    put_plane_or_none(Plane::through(a, b, c), out);
}

fn put_fraction(word: &[u8], p: i128, q: i128, out: &mut Shown) {
    out.put(word);
    out.put_number(p);
    out.put_byte(b'/');
    out.put_number(q);
}

/// `crossing PLANE RAY => enters P/Q`, `leaves P/Q`, `holds` or `misses`
pub fn answer_crossing(words: &mut Words, out: &mut Shown) {
    let plane = plane(words);
    let ray = words.ray();
    match plane.crossing(&ray) {
        Crossing::Enters(p, q) => put_fraction(b"enters ", p, q, out),
        Crossing::Leaves(p, q) => put_fraction(b"leaves ", p, q, out),
        Crossing::Holds => out.put(b"holds"),
        Crossing::Misses => out.put(b"misses"),
    }
}

/// `placed PLANE PLACEMENT => PLANE`
pub fn answer_placed(words: &mut Words, out: &mut Shown) {
    let plane = plane(words);
    let by = words.placement();
    put_plane(&plane.placed(&by), out);
}

/// `height PLANE POINT => HEIGHT`
pub fn answer_height(words: &mut Words, out: &mut Shown) {
    let plane = plane(words);
    let p = words.point(WORLD);
    out.put_number(plane.height(p));
}

/// `plane_level PLANE RAY => LEVEL`, where the ray crosses the plane
pub fn answer_plane_level(words: &mut Words, out: &mut Shown) {
    let plane = plane(words);
    let ray = words.ray();
    match plane.crossing(&ray) {
        Crossing::Enters(_, _) => out.put_number(plane.level(&ray)),
        Crossing::Leaves(_, _) => out.put_number(plane.level(&ray)),
        _ => words.refuse(CaseFault::Number),
    }
}
