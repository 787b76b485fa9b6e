//! The bodies of answers that list what the directory has, what a ray meets, what overlaps, and what pixels present.
#![tactic(auto)]

mod areas;
mod fault;
mod leaves;
mod lines;
mod names;
mod objects;
mod overlaps;
mod shots;
mod slants;
mod trees;

pub use areas::area_text;
pub use fault::TextFault;
pub use names::names_text;
pub use objects::list_text;
pub use overlaps::{overlap_laws, overlap_text};
pub use shots::shot_text;
pub use slants::{slant_laws, slant_text};
pub use transcript::Body;
pub use trees::tree_text;
