//! The segment of a placed solid on a ray in a lattice direction.

ghost use Rattle.std.specs.Prelude.{◌≡◌};
ghost use Rattle.std.specs.Option.{ForSome};
ghost use Rattle.lattice_core.specs.declared.limit.TheConstants.{FAR};
ghost use Rattle.slant_ray.specs.Rays.{direction_of, IsSlantRay};
ghost use Rattle.oblique_ray.specs.Segments.{slant_segment};
ghost use Rattle.oblique_ray.specs.Sizes.{AreEndsInRange};

use crate::run::Run;
use crate::stretch::Stretch;
use slant_ray::SlantRay;
use solid_set::Placed;

/// The part of a ray that a placed solid encloses, in steps of the ray's direction.
pub fn slant_segment(solid: &Placed, ray: &SlantRay) -> Option<Stretch>
    requires { IsSlantRay ray.now }
    ensures value { result ≡ slant_segment FAR solid.now.surface ray.now.origin (direction_of ray.now) }
    ensures range { ForSome result AreEndsInRange }
{
    let e = ray.direction();
    let planes = solid.planes();
    Run::whole()
        .past_planes(&planes, ray.origin, e)
        .past_round(solid.round(), ray.origin, e)
        .ended()
}
