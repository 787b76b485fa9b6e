ghost use Rattle.std.specs.Prelude.{◌≡◌, ◌↔◌, IsOk, IfErr};
ghost use Rattle.lattice_core.specs.Limits.{IsWithin};
ghost use Rattle.slant_ray.specs.declared.ray.TheConstants.{STEP};
ghost use Rattle.slant_ray.specs.Rays.{HasFault, IsChecked, IsSlantRay, direction_of, slant_fault};
ghost use Rattle.command_set.specs.Lawful.{slant_or_fault};

use lattice_core::ViewFault;
use slant_ray::SlantRay;
use std::marker::Model;

/// A ray in a lattice direction that has no fault: its components are at most `STEP` in size and not all 0, no number over 1
/// divides them all, and it starts in the world. Contracts see that ray.
#[derive(Debug, Drop)]
pub struct CheckedSlant {
    ray: SlantRay,
}

impl Model for CheckedSlant {
    ghost use Rattle.slant_ray.specs.declared.ray.SlantRay.{SlantRay};
    ghost use Rattle.slant_ray.specs.Rays.{IsChecked, IsSlantRay};

    ghost Value = { SlantRay };

    ghost view = { λ s. s.ray };

    ghost invariant = { λ s. IsChecked s.ray × IsSlantRay s.ray };
}

impl CheckedSlant {
    /// The ray, or the first of its faults, which are looked for in this order: its direction, an origin outside the world.
    pub fn of_ray(ray: SlantRay) -> Result<CheckedSlant, ViewFault>
        requires { IsWithin STEP (direction_of ray) }
        ensures value { result ≡ slant_or_fault ray (slant_fault ray) }
        ensures checked { IsOk result ↔ IsChecked ray }
        ensures fault { IfErr result (HasFault ray) }
    {
        match ray.check() {
            Ok(()) => Ok(CheckedSlant { ray }),
            Err(fault) => Err(fault),
        }
    }

    /// The ray.
    pub fn ray(&self) -> SlantRay
        ensures value { result ≡ self.now }
        ensures checked { IsChecked result }
        ensures slant { IsSlantRay result }
    {
        self.ray
    }
}
