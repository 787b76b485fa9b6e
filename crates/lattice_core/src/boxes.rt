//! Closed boxes along the axes: the least one that holds two, what two share, and whether a ray meets one.

ghost use Rattle.std.specs.Prelude.{◌↔◌, ◌≡◌, pos, IsTrue};
ghost use Rattle.lattice_core.specs.declared.limit.TheConstants.{WORLD};
ghost use Rattle.lattice_core.specs.Limits.{IsWithin};
ghost use Rattle.lattice_core.specs.Boxes.{IsHull, IsMeet, IsTidy, Meets, MeetsRay, IsRayBox};
ghost use Rattle.lattice_core.specs.Spans.{IsNonEmpty, IsTidyOf, hull_span, meet_span, reach_span};

use crate::extent::Extent;
use crate::ray::Ray;
use crate::vector::V3;

/// One side of a box: open, or at a whole coordinate in tenths of a millimetre, which belongs to the box.
#[derive(Clone, Copy, Debug, PartialEq, Eq, Hash)]
pub enum Side {
    Open,
    At(i64),
}

/// A closed box along the axes: it has no points, or those of which the three coordinates lie in its extents. A span of which
/// an extent has no coordinates has no points either.
#[derive(Clone, Copy, Debug, PartialEq, Eq, Hash)]
pub enum Box3 {
    Empty,
    Span { x: Extent, y: Extent, z: Extent },
}

/// The least box that holds the points of two.
pub fn hull(a: &Box3, b: &Box3) -> Box3
    ensures hull { IsHull result a.now b.now }
    ensures tidy { IsTidy result }
{
    if !has_points(a) {
        return tidy(*b);
    }
    if !has_points(b) {
        return *a;
    }
    hull_of_spans(a, b)
}

fn hull_of_spans(a: &Box3, b: &Box3) -> Box3
    requires a { IsNonEmpty a.now }
    requires b { IsNonEmpty b.now }
    ensures { result ≡ hull_span a.now b.now }
{
    match (*a, *b) {
        (
            Box3::Span { x, y, z },
            Box3::Span {
                x: x_2,
                y: y_2,
                z: z_2,
            },
        ) => Box3::Span {
            x: x.hull(x_2),
            y: y.hull(y_2),
            z: z.hull(z_2),
        },
        _ => Box3::Empty,
    }
}

/// The box of the points that lie in both.
pub fn meet(a: &Box3, b: &Box3) -> Box3
    ensures meet { IsMeet result a.now b.now }
    ensures tidy { IsTidy result }
{
    tidy(meet_of_spans(a, b))
}

fn meet_of_spans(a: &Box3, b: &Box3) -> Box3
    ensures { result ≡ meet_span a.now b.now }
{
    match (*a, *b) {
        (
            Box3::Span { x, y, z },
            Box3::Span {
                x: x_2,
                y: y_2,
                z: z_2,
            },
        ) => Box3::Span {
            x: x.meet(x_2),
            y: y.meet(y_2),
            z: z.meet(z_2),
        },
        _ => Box3::Empty,
    }
}

/// Whether some point lies in both boxes. Boxes that only touch share one.
pub fn boxes_meet(a: &Box3, b: &Box3) -> bool
    ensures { IsTrue result ↔ Meets a.now b.now }
{
    has_points(&meet_of_spans(a, b))
}

/// The box of the points of a ray.
pub fn ray_box(ray: &Ray) -> Box3
    requires { IsWithin WORLD ray.now.origin }
    ensures { IsRayBox result ray.now }
{
    reach_of(ray.origin, ray.dir.unit())
}

fn reach_of(origin: V3, step: V3) -> Box3
    requires origin { IsWithin WORLD origin }
    requires step { IsWithin (pos 1) step }
    ensures { result ≡ reach_span origin step }
{
    Box3::Span {
        x: Extent::of_ray(origin.x, step.x),
        y: Extent::of_ray(origin.y, step.y),
        z: Extent::of_ray(origin.z, step.z),
    }
}

/// Whether some point of the ray lies in the box. A box and a ray that only touch do.
pub fn box_meets_ray(b: &Box3, ray: &Ray) -> bool
    requires { IsWithin WORLD ray.now.origin }
    ensures { IsTrue result ↔ MeetsRay b.now ray.now }
{
    let Box3::Span { x, y, z } = *b else {
        return false;
    };
    let step = ray.dir.unit();
    if !x.meets_ray(ray.origin.x, step.x) {
        return false;
    }
    if !y.meets_ray(ray.origin.y, step.y) {
        return false;
    }
    z.meets_ray(ray.origin.z, step.z)
}

fn has_points(b: &Box3) -> bool
    ensures { IsTrue result ↔ IsNonEmpty b.now }
{
    match *b {
        Box3::Empty => false,
        Box3::Span { x, y, z } => {
            let in_x = x.is_ordered();
            let in_y = y.is_ordered();
            let in_z = z.is_ordered();
            in_x && in_y && in_z
        }
    }
}

/// The box, or `Empty` where it has no points.
fn tidy(b: Box3) -> Box3
    ensures { IsTidyOf b result }
{
    if has_points(&b) { b } else { Box3::Empty }
}
