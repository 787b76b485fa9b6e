//! Boxes in a list, and a tree of bounding boxes that tells which of them a ray or a tile meets without asking each.
#![tactic(auto)]

mod bounds;
mod cut;
mod grow;
mod index;
mod line;
mod node;
mod part;
mod reach;
mod slant;
mod spread;

pub use index::BoxIndex;
