//! Tiles of a view: their pixels, by what their rays meet first of a scene, and the overlaps on their rays.
#![tactic(auto)]

mod check;
mod feed;
mod key;
mod law;
mod limit;
mod merge;
mod pixel;
mod report_law;
mod same;
mod small;
mod tile;

pub use check::check_tile;
pub use key::TileKey;
pub use law::pixel_laws;
pub use limit::{MOST_TILE_SIZE, limit_laws};
pub use merge::merge_pairs;
pub use report_law::report_laws;
pub use shot_core::Pair;
pub use small::are_small;
pub use tile::{Tile, shoot_tile};
