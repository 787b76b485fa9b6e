//! Rows of the numbers that make solids, and of spheres.

ghost use Rattle.std.specs.Prelude.{All};
ghost use Rattle.lattice_core.specs.declared.limit.TheConstants.{COORD};
ghost use Rattle.lattice_core.specs.Limits.{IsWithin};

use crate::geometry::boxes::push_box;
use crate::geometry::planes::{put_plane, put_plane_or_none};
use crate::geometry::shown::put_point;
use crate::geometry::words::Words;
use case_text::{CaseFault, Shown};
use lattice_core::{COORD, HALF_NORMAL, PLACED, V3};
use plane_geom::ShapeFault;
use prim_arb8::Arb8;
use prim_half::Half;
use prim_rcc::Rcc;
use prim_sphere::{Chord, Sphere, bounds_at, crossed_at};

/// The half-space that a word `X,Y,Z:D` is, by its normal and its distance.
pub fn half(words: &mut Words) -> Result<Half, ShapeFault> {
    let word = words.next();
    let (normal, distance) = words.halves(word, b':');
    let n = words.point_in(normal, HALF_NORMAL);
    let d = words.whole_in(distance, COORD);
    Half::new(n, d)
}

/// The sphere of a centre and a radius.
pub fn sphere(words: &mut Words) -> Result<Sphere, ShapeFault> {
    let centre = words.point(COORD);
    let radius = words.whole(COORD);
    Sphere::new(centre, radius)
}

/// The cylinder of the centre of its base, the vector from there to that of its top, and a radius.
pub fn cylinder(words: &mut Words) -> Result<Rcc, ShapeFault> {
    let base = words.point(COORD);
    let height = words.point(COORD);
    let radius = words.whole(COORD);
    Rcc::new(base, height, radius)
}

/// Eight vertices.
fn vertices(words: &mut Words) -> [V3; 8]
    ensures { All (IsWithin COORD) result }
{
    let a = words.point(COORD);
    let b = words.point(COORD);
    let c = words.point(COORD);
    let d = words.point(COORD);
    let e = words.point(COORD);
    let f = words.point(COORD);
    let g = words.point(COORD);
    let h = words.point(COORD);
    [a, b, c, d, e, f, g, h]
}

/// The solid of eight vertices.
pub fn arb8(words: &mut Words) -> Result<Arb8, ShapeFault> {
    Arb8::new(vertices(words))
}

/// `half NX,NY,NZ:D => normal NX,NY,NZ distance D plane PLANE` or its fault
pub fn answer_half(words: &mut Words, out: &mut Shown) -> Result<(), ShapeFault> {
    let half = half(words)?;
    out.put(b"normal ");
    put_point(half.normal(), out);
    out.put(b" distance ");
    out.put_number(half.distance());
    out.put(b" plane ");
    put_plane(&half.plane(), out);
    Ok(())
}

/// `sphere CENTRE RADIUS => centre CENTRE radius RADIUS` or its fault
pub fn answer_sphere(words: &mut Words, out: &mut Shown) -> Result<(), ShapeFault> {
    let sphere = sphere(words)?;
    out.put(b"centre ");
    put_point(sphere.centre(), out);
    out.put(b" radius ");
    out.put_number(sphere.radius());
    Ok(())
}

/// `arb8 VERTEX*8 => PLANE*12`, of the faces 1 to 12, or its fault
pub fn answer_arb8(words: &mut Words, out: &mut Shown) -> Result<(), ShapeFault> {
    let arb8 = arb8(words)?;
    for face in 1..13u8 {
        if face > 1 {
            out.put_byte(b' ');
        }
        put_plane_or_none(arb8.plane(face), out);
    }
    Ok(())
}

/// `vertices VERTEX*8 => VERTEX*8`, of the solid that they make, or its fault
pub fn answer_vertices(words: &mut Words, out: &mut Shown) -> Result<(), ShapeFault> {
    let arb8 = arb8(words)?;
    let mut is_first = true;
    for p in arb8.vertices() {
        if !is_first {
            out.put_byte(b' ');
        }
        is_first = false;
        put_point(p, out);
    }
    Ok(())
}

/// `chord CENTRE RADIUS RAY => a A k K` or `none`, of the sphere of a placed centre
pub fn answer_chord(words: &mut Words, out: &mut Shown) {
    let centre = words.point(PLACED);
    let radius = words.whole(COORD);
    let ray = words.ray();
    match crossed_at(centre, radius, &ray) {
        Some(chord) => {
            out.put(b"a ");
            out.put_number(chord.a);
            out.put(b" k ");
            out.put_number(chord.k);
        }
        None => out.put(b"none"),
    }
}

/// `chord_level K RADIUS => LEVEL`, of a chord whose ends are the root of K from its middle
pub fn answer_chord_level(words: &mut Words, out: &mut Shown) {
    let k = words.whole(COORD * COORD);
    let radius = words.whole(COORD);
    if radius < 1 || k < 0 || k > radius * radius {
        return words.refuse(CaseFault::Number);
    }
    out.put_number(Chord { a: 0, k: k as u64 }.level(radius));
}

/// `sphere_box CENTRE RADIUS => BOX`, of the sphere of a placed centre
pub fn answer_sphere_box(words: &mut Words, out: &mut Shown) -> Result<(), CaseFault> {
    let centre = words.point(PLACED);
    let radius = words.whole(COORD);
    if radius < 1 {
        return Err(CaseFault::Number);
    }
    push_box(&bounds_at(centre, radius), out)
}
