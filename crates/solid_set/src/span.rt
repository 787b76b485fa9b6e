//! From crossings to segments: the running start and end of the part of a ray that is inside.

ghost use Rattle.std.specs.Prelude.{◌≡◌, ◌-◌, ◌≤◌, All, Some, None, cond, slice_index_or};
ghost use Rattle.std.specs.Option.{ForSome};
ghost use Rattle.lattice_core.specs.declared.limit.TheConstants.{WORLD};
ghost use Rattle.lattice_core.specs.Limits.{IsWithin};
ghost use Rattle.plane_geom.specs.Planes.{IsWorldPlane};
ghost use Rattle.prim_rcc.specs.Cylinders.{AreFacesSized};
ghost use Rattle.surd_order.specs.PlaceOrder.{place_cmp};
ghost use Rattle.surd_order.specs.Range.{IsInRange, IsSurdInRange};
ghost use Rattle.surd_order.specs.Spelled.{spelled};
ghost use Rattle.solid_set.specs.declared.surface.Surface.{Surface};
ghost use Rattle.solid_set.specs.Segments.{segment_of};
ghost use Rattle.solid_set.specs.Surfaces.{IsBallSize};
ghost use Rattle.solid_set.specs.Laws.{IsSegInRange};
ghost use Rattle.solid_set.specs.Spans.{IsSpanInRange, IsCrossingInRange, chosen, later, earlier, whole_span, crossed_span, cut_span, finished_span, ball_span, ball_crossed, chord_crossed, run_span, IsRoundInRange};

use crate::crossed::Crossed;
use lattice_core::{FAR, Ray, V3};
use plane_geom::{Chord, Crossing, Plane};
use prim_rcc::{RccFaces, RoundCrossing};
use std::cmp::Ordering;
use surd_order::{Pos, Seg};

/// The part of a ray that the planes so far hold. Its places are not in lowest terms.
#[derive(Clone, Copy)]
struct Span {
    start: Crossed,
    end: Crossed,
}

/// The position in its one spelling.
fn spelled(place: Pos) -> Pos
    requires { IsInRange place }
    ensures value { result ≡ spelled place }
    ensures range { IsInRange result }
{
    match place {
        Pos::Frac { p, q } => Pos::frac(p, q),
        Pos::Surd { a, plus, k } => Pos::surd(a, plus, k),
    }
}

/// Keeps of the best crossing so far and the next one the one that is ahead, by the order of their places. Where both are
/// at one place, the face that was crossed first stays.
fn choose(order: Ordering, best: &mut Crossed, next: Crossed)
    requires best { IsInRange best.old.place }
    requires next { IsInRange next.place }
    ensures value { best.new ≡ chosen order best.old next }
    ensures range { IsInRange best.new.place }
{
    match order {
        Ordering::Less => {}
        Ordering::Equal => {
            if best.face == 0 {
                best.face = next.face;
            }
        }
        Ordering::Greater => {
            *best = next;
        }
    }
}

fn keep_later(best: &mut Crossed, next: Crossed)
    requires best { IsInRange best.old.place }
    requires next { IsInRange next.place }
    ensures value { best.new ≡ later best.old next }
    ensures range { IsInRange best.new.place }
{
    choose(next.place.cmp(&best.place), best, next);
}

fn keep_earlier(best: &mut Crossed, next: Crossed)
    requires best { IsInRange best.old.place }
    requires next { IsInRange next.place }
    ensures value { best.new ≡ earlier best.old next }
    ensures range { IsInRange best.new.place }
{
    choose(best.place.cmp(&next.place), best, next);
}

fn whole_span() -> Span
    ensures value { result ≡ whole_span }
    ensures range { IsSpanInRange result }
{
    Span {
        start: Crossed {
            face: 0,
            place: Pos::Frac { p: 0, q: 1 },
        },
        end: Crossed {
            face: 0,
            place: Pos::Frac {
                p: i128::from(FAR),
                q: 1,
            },
        },
    }
}

/// Cuts a span by what a face does to the ray. Where the ray misses what the face holds, nothing is left, and the answer is no.
fn cross_span(span: &mut Span, face: u8, crossing: Crossing) -> bool
    requires span { IsSpanInRange span.old }
    requires crossing { IsCrossingInRange crossing }
    ensures value { cond result (Some span.new) None ≡ crossed_span span.old face crossing }
    ensures range { IsSpanInRange span.new }
{
    match crossing {
        Crossing::Enters(p, q) => {
            let place = Pos::Frac { p, q };
            keep_later(&mut span.start, Crossed { face, place });
            true
        }
        Crossing::Leaves(p, q) => {
            let place = Pos::Frac { p, q };
            keep_earlier(&mut span.end, Crossed { face, place });
            true
        }
        Crossing::Holds => true,
        Crossing::Misses => false,
    }
}

/// Cuts a span by a face of a solid of eight vertices.
fn cut_span(span: &mut Span, face: u8, sides: &[Option<Plane>; 12], ray: &Ray) -> bool
    requires span { IsSpanInRange span.old }
    requires face { 1 ≤ face }
    requires sides { All (λ side. ForSome side IsWorldPlane) sides.now }
    requires origin { IsWithin WORLD ray.now.origin }
    ensures value { cond result (Some span.new) None ≡ cut_span span.old face (slice_index_or sides.now (face - 1) None) ray.now }
    ensures range { IsSpanInRange span.new }
{
    let crossing = prim_arb8::crossed_at(sides, face, ray);
    cross_span(span, face, crossing)
}

fn finished_span(span: Span) -> Option<Seg>
    requires { IsSpanInRange span }
    ensures value { result ≡ finished_span span }
    ensures range { ForSome result IsSegInRange }
{
    if span.start.place.cmp(&span.end.place).is_lt() {
        Some(Seg {
            start: spelled(span.start.place),
            start_face: span.start.face,
            end: spelled(span.end.place),
            end_face: span.end.face,
        })
    } else {
        None
    }
}

/// The part of the ray that is in a solid of eight vertices, whose faces have the numbers from 1 to 12.
pub fn segment_of_faces(sides: &[Option<Plane>; 12], ray: &Ray) -> Option<Seg>
    requires sides { All (λ side. ForSome side IsWorldPlane) sides.now }
    requires origin { IsWithin WORLD ray.now.origin }
    ensures value { result ≡ segment_of (Surface.Planes sides.now) ray.now }
    ensures range { ForSome result IsSegInRange }
{
    let mut span = whole_span();
    for i in 0..12usize {
        if !cut_span(&mut span, i as u8 + 1, sides, ray) {
            return None;
        }
    }
    finished_span(span)
}

/// The part of the ray that is in a half-space, whose one face has number 1.
pub fn segment_of_half(plane: &Plane, ray: &Ray) -> Option<Seg>
    requires plane { IsWorldPlane plane.now }
    requires origin { IsWithin WORLD ray.now.origin }
    ensures value { result ≡ segment_of (Surface.HalfSpace plane.now) ray.now }
    ensures range { ForSome result IsSegInRange }
{
    let mut span = whole_span();
    if !cross_span(&mut span, 1, prim_half::crossed_at(plane, ray)) {
        return None;
    }
    finished_span(span)
}

/// The part of the ray that is in a ball, whose one face has number 1.
pub fn segment_of_ball(centre: V3, radius: i64, ray: &Ray) -> Option<Seg>
    requires size { IsBallSize centre radius }
    requires origin { IsWithin WORLD ray.now.origin }
    ensures value { result ≡ segment_of (Surface.Ball centre radius) ray.now }
    ensures range { ForSome result IsSegInRange }
{
    match prim_sphere::crossed_at(centre, radius, ray) {
        Some(chord) => finished_span(ball_span(chord)),
        None => None,
    }
}

/// The part of a ray that is between the ends of a chord.
fn ball_span(chord: Chord) -> Span
    requires { IsSurdInRange chord.a chord.k }
    ensures value { result ≡ ball_span chord }
    ensures range { IsSpanInRange result }
{
    let mut span = whole_span();
    keep_later(&mut span.start, chord_crossed(1, chord, false));
    keep_earlier(&mut span.end, chord_crossed(1, chord, true));
    span
}

/// The one end of a chord or the other, on a face.
fn chord_crossed(face: u8, chord: Chord, plus: bool) -> Crossed
    requires { IsSurdInRange chord.a chord.k }
    ensures value { result ≡ chord_crossed face chord plus }
    ensures range { IsInRange result.place }
{
    let Chord { a, k } = chord;
    let place = Pos::Surd { a, plus, k };
    Crossed { face, place }
}

/// The part of the ray that is in a cylinder: face 1 is the base, 2 the top and 3 the round side.
pub fn segment_of_cylinder(faces: &RccFaces, ray: &Ray) -> Option<Seg>
    requires faces { AreFacesSized faces.now }
    requires origin { IsWithin WORLD ray.now.origin }
    ensures value { result ≡ segment_of (Surface.Cylinder faces.now) ray.now }
    ensures range { ForSome result IsSegInRange }
{
    let mut span = whole_span();
    if !cross_span(&mut span, 1, faces.base.crossing(ray)) {
        return None;
    }
    if !cross_span(&mut span, 2, faces.top.crossing(ray)) {
        return None;
    }
    if !run_span(&mut span, prim_rcc::crossed_at(&faces.side, ray)) {
        return None;
    }
    finished_span(span)
}

/// Cuts a span by what a round side, face 3, does to the ray. Where the ray misses it, nothing is left, and the answer is no.
fn run_span(span: &mut Span, crossing: RoundCrossing) -> bool
    requires span { IsSpanInRange span.old }
    requires crossing { IsRoundInRange crossing }
    ensures value { cond result (Some span.new) None ≡ run_span span.old crossing }
    ensures range { IsSpanInRange span.new }
{
    match crossing {
        RoundCrossing::Through(chord) => {
            keep_later(&mut span.start, chord_crossed(3, chord, false));
            keep_earlier(&mut span.end, chord_crossed(3, chord, true));
            true
        }
        RoundCrossing::Holds => true,
        RoundCrossing::Misses => false,
    }
}
