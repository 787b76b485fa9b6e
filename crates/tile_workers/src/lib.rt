//! Jobs of many pieces, run on several threads or on one, with their results in the order of the pieces.
#![tactic(auto)]

mod alone;
mod cells;
mod job;
mod shoot;

pub use alone::shoot_alone;
pub use job::Job;
pub use shoot::shoot_all;
