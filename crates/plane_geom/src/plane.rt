//! Planes: made, placed, crossed by rays, and lit. The rule for a ray that lies in a plane stands here.

ghost use Rattle.std.specs.Prelude.{◌↔◌, IsTrue};
ghost use Rattle.plane_geom.specs.Edges.{FirstIsNegative};

use crate::measure::{cross, dot, from_to, high_dot, square, square_of_length};
use lattice_core::{Placement, Ray, V3};

/// The half-space of the points `p` with `n · p` at most `d`.
#[derive(Clone, Copy, Debug, PartialEq, Eq, Hash)]
pub struct Plane {
    pub n: V3,
    pub d: i128,
}

/// What a plane does to a ray.
#[derive(Clone, Copy, Debug, PartialEq, Eq)]
pub enum Crossing {
    /// The ray is held from this fraction on. The second number is positive.
    Enters(i128, i128),
    /// The ray is held up to this fraction. The second number is positive.
    Leaves(i128, i128),
    /// The whole ray is held.
    Holds,
    /// No point of the ray is held.
    Misses,
}

impl Plane {
    ghost use Rattle.std.specs.Prelude.{◌≡◌, ◌≢◌, ◌↔◌, ◌-ℤ◌, ◌*ℤ◌, pos, IsNone, IfSome, IsTrue};
    ghost use Rattle.lattice_core.specs.declared.limit.TheConstants.{COORD, SHIFT, WORLD};
    ghost use Rattle.plane_geom.specs.declared.limit.TheConstants.{NORMAL, GAP};
    ghost use Rattle.lattice_core.specs.Limits.{IsAtMost, IsWithin};
    ghost use Rattle.plane_geom.specs.Crossings.{crossing_of};
    ghost use Rattle.plane_geom.specs.Edges.{HoldsAlong};
    ghost use Rattle.plane_geom.specs.Planes.{IsSolidPlane, IsWorldPlane, AreOnOneLine, IsThrough, plane_of, plane_through, placed_plane, KeepsHeights, slope_on, start_on, height_over, IsCrossing, IsSmallCrossing, level_of};

    /// The plane through three points, with the normal `(b - a) × (c - a)`, or `None` where they lie on one line.
    pub fn through(a: V3, b: V3, c: V3) -> Option<Plane>
        requires first { IsWithin COORD a }
        requires second { IsWithin COORD b }
        requires third { IsWithin COORD c }
        ensures none { IsNone result ↔ AreOnOneLine a b c }
        ensures value { result ≡ plane_through a b c }
        ensures plane { IfSome result (λ plane. IsThrough plane a b c) }
        ensures size { IfSome result IsSolidPlane }
    {
        let n = cross(from_to(a, b), from_to(a, c));
        if n.is_zero() {
            None
        } else {
            Some(Plane { n, d: dot(n, a) })
        }
    }

    /// The plane through a point with a normal whose components are at most 1 in size.
    pub fn at(n: V3, p: V3) -> Plane
        requires normal { IsWithin (pos 1) n }
        requires point { IsWithin (pos 2 *ℤ COORD) p }
        ensures value { result ≡ plane_of n p }
        ensures size { IsSolidPlane result }
    {
        Plane { n, d: dot(n, p) }
    }

    /// The plane of the points that the placement takes this plane's points to.
    pub fn placed(&self, by: &Placement) -> Plane
        requires plane { IsSolidPlane self.now }
        requires shift { IsWithin SHIFT by.now.shift }
        ensures value { result ≡ placed_plane by.now self.now }
        ensures heights { KeepsHeights by.now self.now result }
        ensures size { IsWorldPlane result }
    {
        let n = by.turn.apply(self.n);
        Plane {
            n,
            d: self.d + dot(n, by.shift),
        }
    }

    /// From which fraction of the ray on, or up to which one, its points are held.
    pub fn crossing(&self, ray: &Ray) -> Crossing
        requires plane { IsWorldPlane self.now }
        requires origin { IsWithin WORLD ray.now.origin }
        ensures value { result ≡ crossing_of self.now ray.now }
        ensures crossing { IsCrossing self.now ray.now result }
        ensures size { IsSmallCrossing result }
    {
        let slope = self.slope(ray);
        let gap = self.gap(ray);
        if slope > 0 {
            Crossing::Leaves(gap, slope)
        } else if slope < 0 {
            Crossing::Enters(-gap, -slope)
        } else if self.holds_along(gap) {
            Crossing::Holds
        } else {
            Crossing::Misses
        }
    }

    /// How fast `n · p` grows along the ray.
    fn slope(&self, ray: &Ray) -> i128
        requires { IsWithin NORMAL self.now.n }
        ensures value { result ≡ slope_on self.now ray.now }
        ensures size { IsAtMost NORMAL result }
    {
        i128::from(self.n.along(ray.dir))
    }

    /// How far `n · p` is below `d` where the ray starts.
    fn gap(&self, ray: &Ray) -> i128
        requires plane { IsWorldPlane self.now }
        requires origin { IsWithin WORLD ray.now.origin }
        ensures value { result ≡ self.now.d -ℤ start_on self.now ray.now }
        ensures size { IsAtMost GAP result }
    {
        self.d - dot(self.n, ray.origin)
    }

    /// Whether a ray along the plane, of this gap, is held.
    fn holds_along(&self, gap: i128) -> bool
        ensures { IsTrue result ↔ HoldsAlong self.now.n gap }
    {
        if gap == 0 {
            first_is_negative(self.n)
        } else {
            gap > 0
        }
    }

    /// How far a point lies beyond the plane, times the normal's length: negative on the inner side.
    pub fn height(&self, p: V3) -> i128
        requires { IsSolidPlane self.now }
        ensures { result ≡ height_over self.now p }
    {
        high_dot(self.n, p) - self.d
    }

    /// The brightness of the plane as the ray meets it, from 55 to 255.
    pub fn level(&self, ray: &Ray) -> u8
        requires plane { IsWorldPlane self.now }
        requires crossed { slope_on self.now ray.now ≢ pos 0 }
        ensures { result ≡ level_of self.now.n ray.now.dir }
    {
        let square = square(self.n.along(ray.dir));
        (55 + 200 * square / square_of_length(self.n)) as u8
    }
}

/// Whether the first component that is not zero is negative.
fn first_is_negative(n: V3) -> bool
    ensures { IsTrue result ↔ FirstIsNegative n }
{
    n.x < 0 || n.x == 0 && (n.y < 0 || n.y == 0 && n.z < 0)
}
