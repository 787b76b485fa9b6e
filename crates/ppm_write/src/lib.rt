//! Pictures: the head of their file, and the pixels of tiles put into them.
#![tactic(auto)]

mod head;
mod tile;
mod whole;

pub use head::{HeaderText, header};
pub use tile::copy_tile;
pub use whole::tiles_make_the_picture;
