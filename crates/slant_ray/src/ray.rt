ghost use Rattle.std.specs.Prelude.{◌≡◌, ◌↔◌, IsOk, IsTrue, Err, IfErr, pos};
ghost use Rattle.lattice_core.specs.Limits.{IsWithin};
ghost use Rattle.lattice_core.specs.Views.{answer_of};
ghost use Rattle.slant_ray.specs.declared.ray.TheConstants.{STEP};
ghost use Rattle.slant_ray.specs.Rays.{HasFault, IsChecked, IsPrimitive, IsSlantRay, direction_of, is_from_world, slant_fault};

use lattice_core::{V3, ViewFault, WORLD};
use wide_core::gcd;

/// The greatest size of a component of a direction.
pub const STEP: i64 = 4;

/// A ray from a point along a whole vector, in steps of which its length is counted. Its
/// origin is in tenths of a millimetre.
#[derive(Clone, Copy, Debug, PartialEq, Eq)]
pub struct SlantRay {
    pub origin: V3,
    pub x: i8,
    pub y: i8,
    pub z: i8,
}

/// Whether a point is one from which rays start: its coordinates are at most `WORLD` in size.
fn is_from_world(point: V3) -> bool
    ensures { result ≡ is_from_world point }
{
    let V3 { x, y, z } = point;
    if x < -WORLD || WORLD < x {
        return false;
    }
    if y < -WORLD || WORLD < y {
        return false;
    }
    -WORLD <= z && z <= WORLD
}

impl SlantRay {
    /// The vector along which it goes.
    pub fn direction(&self) -> V3
        ensures { result ≡ direction_of self.now }
    {
        V3 {
            x: i64::from(self.x),
            y: i64::from(self.y),
            z: i64::from(self.z),
        }
    }

    /// Whether no number over 1 divides all components, and not all are 0.
    fn is_primitive(&self) -> bool
        ensures { IsTrue result ↔ IsPrimitive (direction_of self.now) }
    {
        let x = u128::from(self.x.unsigned_abs());
        let y = u128::from(self.y.unsigned_abs());
        let z = u128::from(self.z.unsigned_abs());
        gcd(gcd(x, y), z) == 1
    }

    /// The first of its faults, which are looked for in this order: a direction whose components are all 0 or have a common
    /// divisor over 1, an origin outside the world.
    pub fn check(&self) -> Result<(), ViewFault>
        requires { IsWithin STEP (direction_of self.now) }
        ensures value { result ≡ answer_of (slant_fault self.now) }
        ensures checked { IsOk result ↔ IsChecked self.now }
        ensures slant { IsOk result → IsSlantRay self.now }
        ensures fault { IfErr result (λ fault. HasFault self.now fault) }
        ensures order { result ≡ Err ViewFault.World → IsPrimitive (direction_of self.now) }
    {
        if !self.is_primitive() {
            return Err(ViewFault::Direction);
        }
        if !is_from_world(self.origin) {
            return Err(ViewFault::World);
        }
        Ok(())
    }
}
