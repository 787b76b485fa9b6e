//! What a ray meets first of the regions without air, found without what lies after it.
#![tactic(auto)]

mod beside;
mod front;
mod hit;
mod near;
mod own;
mod seen;
mod tree_value;

pub use near::near_order;
pub use seen::{Scratch, shoot_first};
