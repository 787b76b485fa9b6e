ghost use Rattle.std.specs.Prelude.{◌≡◌};
ghost use Rattle.lattice_core.specs.declared.limit.TheConstants.{COORD};
ghost use Rattle.lattice_core.specs.Limits.{IsWithin};

use lattice_core::Placement;
use std::marker::Model;

/// A placement whose shift has components of at most `COORD` in size. Contracts see that placement.
#[derive(Debug, Drop)]
pub struct NearPlacement {
    placement: Placement,
}

impl Model for NearPlacement {
    ghost use Rattle.lattice_core.specs.declared.limit.TheConstants.{COORD};
    ghost use Rattle.lattice_core.specs.declared.placement.Placement.{Placement};
    ghost use Rattle.lattice_core.specs.Limits.{IsWithin};

    ghost Value = { Placement };

    ghost view = { λ s. s.placement };

    ghost invariant = { λ s. IsWithin COORD s.placement.shift };
}

impl NearPlacement {
    /// A placement that is near.
    pub fn of_placement(placement: Placement) -> NearPlacement
        requires { IsWithin COORD placement.shift }
        ensures { result ≡ placement }
    {
        NearPlacement { placement }
    }

    /// The placement.
    pub fn placement(&self) -> Placement
        ensures value { result ≡ self.now }
        ensures near { IsWithin COORD result.shift }
    {
        self.placement
    }
}
