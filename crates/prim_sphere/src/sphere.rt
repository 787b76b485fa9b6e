//! Spheres: made, their numbers, and put into the world.

use lattice_core::{Placement, V3};
use plane_geom::ShapeFault;
use std::marker::Model;

/// The points at most `radius` from `centre`, in tenths of a millimetre. The radius is at least 1, and it and the
/// coordinates of the centre are at most `COORD` in size. Contracts see its centre and its radius.
#[derive(Clone, Copy, Debug, PartialEq, Eq, Hash)]
pub struct Sphere {
    centre: V3,
    radius: i64,
}

impl Model for Sphere {
    ghost use Rattle.prim_sphere.specs.Spheres.{Ball, IsBall};

    ghost Value = { Ball };

    ghost view = { λ s. record { centre = s.centre; radius = s.radius } };

    ghost invariant = { λ s. IsBall s.centre s.radius };

    ghost inverse = { λ ball. record { centre = ball.centre; radius = ball.radius } };
}

impl Sphere {
    ghost use Rattle.std.specs.Prelude.{◌≡◌, ◌↔◌, ◌<ℤ◌, ◌≤ℤ◌, pos, Result, Err, MatchResult};
    ghost use Rattle.lattice_core.specs.declared.limit.TheConstants.{COORD, PLACED, SHIFT};
    ghost use Rattle.lattice_core.specs.Limits.{IsAtMost, IsWithin};
    ghost use Rattle.plane_geom.specs.declared.fault.ShapeFault.{ShapeFault};
    ghost use Rattle.lattice_core.specs.Placements.{placed};
    ghost use Rattle.prim_sphere.specs.Spheres.{IsBall, IsRadius};

    /// The sphere of a centre and a radius, or `Radius` where the radius is below 1.
    pub fn new(c: V3, r: i64) -> Result<Sphere, ShapeFault>
        requires centre { IsWithin COORD c }
        requires radius { IsAtMost COORD r }
        ensures radius { (result ≡ Err ShapeFault.Radius) ↔ (r <ℤ pos 1) }
        ensures value { MatchResult result (λ sphere. (sphere.centre ≡ c) × (sphere.radius ≡ r)) (λ e. e ≡ ShapeFault.Radius) }
    {
        if r < 1 {
            return Err(ShapeFault::Radius);
        }
        Ok(Sphere {
            centre: c,
            radius: r,
        })
    }

    /// The centre.
    pub fn centre(&self) -> V3
        ensures value { result ≡ self.now.centre }
        ensures size { IsWithin COORD result }
    {
        self.centre
    }

    /// The radius, from 1 to `COORD`.
    pub fn radius(&self) -> i64
        ensures value { result ≡ self.now.radius }
        ensures size { IsRadius result }
    {
        self.radius
    }

    /// The sphere in the world: where the placement takes its centre.
    pub fn placed(&self, by: &Placement) -> V3
        requires { IsWithin SHIFT by.now.shift }
        ensures value { result ≡ placed by.now self.now.centre }
        ensures size { IsWithin PLACED result }
        ensures lawful { IsBall self.now.centre self.now.radius }
    {
        by.place(self.centre)
    }
}
