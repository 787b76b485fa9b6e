//! Scenes: the regions that a list of names gives, and what a ray meets of them.
#![tactic(auto)]

mod digest;
mod first;
mod kept;
mod laws;
mod limit;
mod meet;
mod pair;
mod region;
mod scene;
mod shot;
mod tree_box;

pub use first::Seen;
pub use kept::{MOST_COMPARED, indexed, kept_bodies, kept_regions, overlap_candidates};
pub use laws::{box_laws, claim_box_laws, first_seen_laws, kept_laws, point_laws, segment_laws};
pub use limit::{MOST_LEAVES, limit_laws};
pub use meet::note;
pub use pair::Pair;
pub use region::{PathText, PrepRegion, SceneRegion};
pub use scene::Scene;
pub use shot::{Lit, check_ray, level_of_hit, region_claims, shoot};
