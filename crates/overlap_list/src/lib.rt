//! Which region has each part of a ray: winners, partitions with their hits, and the overlaps of regions.
#![tactic(auto)]

mod hit;
mod laws;
mod overlap;
mod partition;
mod region;
mod winner;

pub use hit::Hit;
pub use laws::{first_laws, first_overlap_laws, overlap_laws, partition_laws};
pub use overlap::{CheckFault, MOST_PAIRS, OverlapRun, limit_laws, overlaps};
pub use partition::{Partition, settle};
pub use region::RegionClaims;
