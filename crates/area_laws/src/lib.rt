//! Laws of areas: what the presented region tells of the points of a ray.
#![tactic(auto)]

ghost use Rattle.area_laws.specs.PlacePoints.{PlacesTellPoints};

/// What a ray presents is the place of the region without air that lies first on it, hit places aside, or 0 where none holds. No
/// other place is so. The function does nothing: its contract is the law.
pub fn area_point_laws()
    ensures { PlacesTellPoints }
{}
