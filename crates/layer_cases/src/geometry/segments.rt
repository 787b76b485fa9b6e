//! Rows of placed solids and rays.

ghost use Rattle.lattice_core.specs.declared.limit.TheConstants.{WORLD};
ghost use Rattle.lattice_core.specs.Limits.{IsWithin};

use crate::geometry::boxes::push_box;
use crate::geometry::positions::put_position;
use crate::geometry::solids::{arb8, cylinder, half, sphere};
use crate::geometry::words::Words;
use case_text::{CaseFault, Shown};
use lattice_core::{COORD, Ray};
use plane_geom::ShapeFault;
use solid_set::{Placed, Solid};
use surd_order::Seg;

/// The box of six whole numbers.
fn rpp(words: &mut Words) -> Result<Solid, ShapeFault> {
    let xmin = words.whole(COORD);
    let xmax = words.whole(COORD);
    let ymin = words.whole(COORD);
    let ymax = words.whole(COORD);
    let zmin = words.whole(COORD);
    let zmax = words.whole(COORD);
    Solid::rpp(xmin, xmax, ymin, ymax, zmin, zmax)
}

/// A solid: `rpp XMIN XMAX YMIN YMAX ZMIN ZMAX`, `arb8 VERTEX*8`, `sphere CENTRE RADIUS`, `half NX,NY,NZ:D` or
/// `rcc BASE HEIGHT RADIUS`.
fn solid(words: &mut Words) -> Result<Solid, ShapeFault> {
    match words.next() {
        b"rpp" => rpp(words),
        b"arb8" => Ok(Solid::Arb8(arb8(words)?)),
        b"sphere" => Ok(Solid::Sphere(sphere(words)?)),
        b"half" => Ok(Solid::Half(half(words)?)),
        b"rcc" => Ok(Solid::Rcc(cylinder(words)?)),
        _ => {
            words.refuse(CaseFault::Line);
            Err(ShapeFault::Flat)
        }
    }
}

/// A solid, the word `at`, and a placement: the solid in the world.
fn placed(words: &mut Words) -> Result<Placed, ShapeFault> {
    let solid = solid(words);
    words.skip(b"at");
    let by = words.placement();
    Ok(solid?.placed(&by))
}

/// The word `ray`, and a ray.
fn ray(words: &mut Words) -> Ray
    ensures { IsWithin WORLD result.origin }
{
    words.skip(b"ray");
    words.ray()
}

fn put_segment(segment: Option<Seg>, out: &mut Shown) {
    match segment {
        Some(segment) => {
            put_position(&segment.start, out);
            out.put(b" face ");
            out.put_number(segment.start_face);
            out.put(b" to ");
            put_position(&segment.end, out);
            out.put(b" face ");
            out.put_number(segment.end_face);
        }
        None => out.put(b"none"),
    }
}

/// `segment SOLID at PLACEMENT ray RAY => START face N to END face N`, `none`, or the solid's fault
pub fn answer_segment(words: &mut Words, out: &mut Shown) -> Result<(), ShapeFault> {
    let placed = placed(words);
    let ray = ray(words);
    put_segment(placed?.segment(&ray), out);
    Ok(())
}

/// `bounds SOLID at PLACEMENT => BOX`, or the solid's fault
pub fn answer_bounds(words: &mut Words, out: &mut Shown) -> Result<(), ShapeFault> {
    let _always = push_box(&placed(words)?.bounds(), out);
    Ok(())
}

/// Puts in the level where the ray enters, or `none`.
fn put_start_level(placed: &Placed, ray: &Ray, out: &mut Shown)
    requires { IsWithin WORLD ray.now.origin }
{
    match placed.segment(ray) {
        Some(segment) => out.put_number(placed.level(segment.start_face, ray)),
        None => out.put(b"none"),
    }
}

/// `level SOLID at PLACEMENT ray RAY => LEVEL`, where the ray enters, `none`, or the solid's fault
pub fn answer_level(words: &mut Words, out: &mut Shown) -> Result<(), ShapeFault> {
    let placed = placed(words);
    let ray = ray(words);
    put_start_level(&placed?, &ray, out);
    Ok(())
}
