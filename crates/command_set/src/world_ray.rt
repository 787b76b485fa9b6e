ghost use Rattle.std.specs.Prelude.{◌≡◌, ◌↔◌, IsSome, IfSome, IsTrue};
ghost use Rattle.lattice_core.specs.declared.limit.TheConstants.{WORLD};
ghost use Rattle.lattice_core.specs.Limits.{IsWithin};

use lattice_core::{Ray, V3, WORLD};
use std::marker::Model;

/// A ray that starts in the world: the coordinates of its origin are at most `WORLD` in size. Contracts see that ray.
#[derive(Debug, Drop)]
pub struct WorldRay {
    ray: Ray,
}

impl Model for WorldRay {
    ghost use Rattle.lattice_core.specs.declared.limit.TheConstants.{WORLD};
    ghost use Rattle.lattice_core.specs.declared.ray.Ray.{Ray};
    ghost use Rattle.lattice_core.specs.Limits.{IsWithin};

    ghost Value = { Ray };

    ghost view = { λ s. s.ray };

    ghost invariant = { λ s. IsWithin WORLD s.ray.origin };
}

fn is_in_world(point: V3) -> bool
    ensures { IsTrue result ↔ IsWithin WORLD point }
{
    let V3 { x, y, z } = point;
    if x < -WORLD || WORLD < x {
        return false;
    }
    if y < -WORLD || WORLD < y {
        return false;
    }
    -WORLD <= z && z <= WORLD
}

impl WorldRay {
    /// The ray, or `None` exactly where it starts outside the world.
    pub fn of_ray(ray: Ray) -> Option<WorldRay>
        ensures value { IfSome result (λ r. r ≡ ray) }
        ensures some { IsSome result ↔ IsWithin WORLD ray.origin }
    {
        if is_in_world(ray.origin) {
            Some(WorldRay { ray })
        } else {
            None
        }
    }

    /// The ray.
    pub fn ray(&self) -> Ray
        ensures value { result ≡ self.now }
        ensures origin { IsWithin WORLD result.origin }
    {
        self.ray
    }
}
