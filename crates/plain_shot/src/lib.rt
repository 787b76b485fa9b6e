//! What a ray meets of a scene, by the definitions alone: every instance, every interval, every run and every pair are
//! tried, one after another. It is slow, and made for tests that compare it with what `shot_core` answers.
#![tactic(auto)]

mod claim;
mod cut;
mod hit;
mod interval;
mod laid;
mod overlap;
mod partition;
mod run;
mod segment;
mod tree;
mod winner;

pub use overlap::plain_overlaps;
pub use partition::plain_partitions;
