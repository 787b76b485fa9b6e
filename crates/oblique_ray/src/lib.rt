//! Rays in lattice directions: what a placed solid has of one, and what its partitions are in a scene.
#![tactic(auto)]

mod cut;
mod limit;
mod measure;
mod piece;
mod run;
mod shot;
mod slab;
mod slant;
mod stretch;
#[cfg(test)]
mod tests;

ghost use Rattle.oblique_ray.specs.Laws.{SlantSegmentsTellPoints, SlantSegmentsLieAlong};
ghost use Rattle.oblique_ray.specs.Axes.{AxesAreAsBefore};
ghost use Rattle.oblique_ray.specs.Running.{MayBeSpelledFirst};
ghost use Rattle.oblique_ray.specs.Sizes.{SlantSegmentsStayInRange};
ghost use Rattle.oblique_ray.specs.Points.{SlabsTellPoints};
ghost use Rattle.oblique_ray.specs.Shots.{PartitionsAlongAxes};

pub use limit::{CHORD, NEAREST, PACE, SLOPE, limit_laws};
pub use shot::slant_shot;
pub use slab::Slab;
pub use slant::slant_segment;
pub use slant_ray::SlantRay;
pub use stretch::{Stretch, between, earlier, later};

/// The segment of a ray in any whole direction tells which of its points lie inside, and lies along the ray. The function does
/// nothing: its contract is the laws.
pub fn segment_law()
    ensures points { SlantSegmentsTellPoints }
    ensures along { SlantSegmentsLieAlong }
{}

/// Under the limits for rays and placed solids both ends of a segment are in the range in which positions are compared. The function
/// does nothing: its contract is the law.
pub fn range_law()
    ensures { SlantSegmentsStayInRange }
{}

/// Along an axis the segment is that of the plain ray. The function does nothing: its contract is the law.
pub fn axis_law()
    ensures { AxesAreAsBefore }
{}

/// Crossings may be taken one by one, each in its one spelling. The function does nothing: its contract is the law.
pub fn running_law()
    ensures { MayBeSpelledFirst }
{}

/// The partitions of a ray in a lattice direction are the one list that tells what lies at its points, and along an axis they are those
/// of the plain ray. The function does nothing: its contract is the laws.
pub fn partition_laws()
    ensures points { SlabsTellPoints }
    ensures axes { PartitionsAlongAxes }
{}
