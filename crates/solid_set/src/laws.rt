//! Laws that join the two ways in which one rule stands: as a relation that readers know, and as what is computed.

ghost use Rattle.std.specs.Prelude.{◌↔◌, ℤ, pos, ◌*ℤ◌, ◌<ℤ◌};
ghost use Rattle.lattice_core.specs.declared.limit.TheConstants.{COORD};
ghost use Rattle.lattice_core.specs.Rays.{IsOnRay};
ghost use Rattle.plane_geom.specs.declared.limit.TheConstants.{GAP, NORMAL, REMOTE};
ghost use Rattle.surd_order.specs.declared.range.TheConstants.{OVER_LIMIT, SQUARE_LIMIT, UNDER_LIMIT, WHOLE_LIMIT};
ghost use Rattle.surd_order.specs.declared.position.Pos.{Pos};
ghost use Rattle.solid_set.specs.Laws.{IsWithinRay};
ghost use Rattle.solid_set.specs.PlacedFaces.{SurfacesAreOfFaces};
ghost use Rattle.solid_set.specs.PlacingLaws.{SolidsStandUnderOne, SolidsStandAlike};
ghost use Rattle.solid_set.specs.ScaleLaws.{SegmentsScale, LevelsStay, SolidsScale, PlacementsScale};
ghost use Rattle.solid_set.specs.Separation.{PlacesAreSeparated};
ghost use Rattle.solid_set.specs.Times.{TimesKeepsOrder};

/// A fraction lies on a ray exactly where it is neither before the position at which rays begin nor after the one at
/// which they end.
pub fn ray_laws()
    ensures { (p q : ℤ) → pos 0 <ℤ q → IsOnRay p q ↔ IsWithinRay (Pos.Frac p q) }
{}

/// Between two different places lie fractions, each before the next, as many as one likes. The function does nothing: its
/// contract is the law.
pub fn separation_law()
    ensures { PlacesAreSeparated }
{}

/// The greatest numbers of the crossings of planes and of the chords of spheres are below the limits under which positions
/// are compared. This law is what refuses limits of lengths that are too large for that.
pub fn limit_laws()
    ensures over { GAP <ℤ pos OVER_LIMIT }
    ensures under { NORMAL <ℤ UNDER_LIMIT }
    ensures whole { REMOTE <ℤ pos WHOLE_LIMIT }
    ensures square { (COORD *ℤ COORD) <ℤ pos SQUARE_LIMIT }
{}

/// Along a ray the planes and the round face of a placed solid tell its crossings and its inside. The function does nothing: its
/// contract is the law.
pub fn face_law()
    ensures { SurfacesAreOfFaces }
{}

/// Where a solid stands below several placements: where the one placement takes it that does what they do, and where others
/// take it that take each point alike. The function does nothing: its contract is the laws.
pub fn placing_law()
    ensures one { SolidsStandUnderOne }
    ensures alike { SolidsStandAlike }
{}

/// So many times two positions stand as the positions do. The function does nothing: its contract is the law.
pub fn times_law()
    ensures { TimesKeepsOrder }
{}

/// The law of scale for solids: where all lengths are so many times as large, what a ray has of a solid is as many times as
/// far, with the same faces as bright as before. The function does nothing: its contract is the law.
pub fn scale_law()
    ensures segments { SegmentsScale }
    ensures levels { LevelsStay }
    ensures solids { SolidsScale }
    ensures placements { PlacementsScale }
{}
