//! Rays in lattice directions: from a point along a whole vector.
#![tactic(auto)]

mod ray;

pub use ray::{STEP, SlantRay};
