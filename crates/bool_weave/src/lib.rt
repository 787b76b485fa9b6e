//! What lies along a ray: the segments of instances woven together, the cuts that they make, and the intervals that
//! boolean trees over them claim.
#![tactic(auto)]

mod claim;
mod laws;
mod mask;
mod place;
mod span;
mod woven;

pub use claim::{ClaimRow, claims};
pub use laws::{claim_laws, cut_laws, place_laws};
pub use mask::{MaskNode, MaskTree};
pub use place::place_in;
pub use woven::{Weave, Woven};
