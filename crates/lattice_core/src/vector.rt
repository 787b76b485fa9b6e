//! Points and vectors, and what is done to their components.

ghost use Rattle.std.specs.Prelude.{◌≡◌, ◌↔◌, ◌≤ℤ◌, ℤ, pos, IsTrue};
ghost use Rattle.lattice_core.specs.declared.limit.TheConstants.{WIDE};
ghost use Rattle.lattice_core.specs.Limits.{IsAtMost};

use crate::ray::Dir;

/// A point or a vector with whole components, in tenths of a millimetre.
#[derive(Clone, Copy, Debug, PartialEq, Eq, Hash)]
pub struct V3 {
    pub x: i64,
    pub y: i64,
    pub z: i64,
}

impl V3 {
    ghost use Rattle.lattice_core.specs.Limits.{IsWithin, IsBelow};
    ghost use Rattle.lattice_core.specs.Units.{unit_of};
    ghost use Rattle.lattice_core.specs.Vectors.{dot_product, vector_sum, zero_vector};

    /// The sum of two vectors.
    pub fn plus(self, other: V3) -> V3
        requires first { IsBelow WIDE self }
        requires second { IsBelow WIDE other }
        ensures { result ≡ vector_sum self other }
    {
        V3 {
            x: self.x + other.x,
            y: self.y + other.y,
            z: self.z + other.z,
        }
    }

    /// The component in a direction, which is the dot product with the vector of length 1 in it, from either side.
    pub fn along(self, dir: Dir) -> i64
        requires { IsBelow WIDE self }
        ensures value { result ≡ dot_product self (unit_of dir) }
        ensures turned { result ≡ dot_product (unit_of dir) self }
        ensures size { (limit : ℤ) → IsWithin limit self → IsAtMost limit result }
    {
        match dir {
            Dir::PlusX => self.x,
            Dir::MinusX => -self.x,
            Dir::PlusY => self.y,
            Dir::MinusY => -self.y,
            Dir::PlusZ => self.z,
            Dir::MinusZ => -self.z,
        }
    }

    /// Whether all components are 0.
    pub fn is_zero(self) -> bool
        ensures { IsTrue result ↔ (self ≡ zero_vector) }
    {
        self.x == 0 && self.y == 0 && self.z == 0
    }

    /// Whether every component is at most a limit in size.
    pub fn is_within(self, limit: i64) -> bool
        requires { (pos 0 ≤ℤ limit) × (limit ≤ℤ WIDE) }
        ensures { IsTrue result ↔ IsWithin limit self }
    {
        if !is_at_most(limit, self.x) {
            return false;
        }
        if !is_at_most(limit, self.y) {
            return false;
        }
        is_at_most(limit, self.z)
    }
}

fn is_at_most(limit: i64, component: i64) -> bool
    requires { (pos 0 ≤ℤ limit) × (limit ≤ℤ WIDE) }
    ensures { IsTrue result ↔ IsAtMost limit component }
{
    -limit <= component && component <= limit
}
