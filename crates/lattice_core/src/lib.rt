//! The lattice of whole points: vectors, axis directions, rays, views and their tiles, placements and boxes. Lengths are whole tenths of a millimetre.
#![tactic(auto)]

mod boxes;
mod extent;
mod limit;
mod placement;
mod ray;
mod row;
mod tile;
mod turn;
mod vector;
mod view;

pub use boxes::{Box3, Side, box_meets_ray, boxes_meet, hull, meet, ray_box};
pub use extent::Extent;
pub use limit::{
    COORD, FAR, HALF_NORMAL, MILLIMETRE, PICTURE_SIDE, PLACED, REACH, SHIFT, TILE_SIDE,
    VIEW_NUMBER, WIDE, WORLD, limit_laws,
};
pub use placement::{MatrixFault, Placement, compose, of_matrix};
pub use ray::{Dir, Ray};
pub use tile::{TileSpan, box_meets_tile, tile_box};
pub use turn::Turn;
pub use vector::V3;
pub use view::{View, ViewFault};
