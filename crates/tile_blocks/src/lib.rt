//! Blocks of pixels: lists of so many samples a pixel, and those of tiles put into the list of a view.
#![tactic(auto)]

mod copy;
mod law;

pub use copy::copy_tile;
pub use law::block_laws;
