//! What a placed solid of each kind keeps to decide where a ray is inside.

use lattice_core::V3;
use plane_geom::Plane;
use prim_rcc::{Axis, RccFaces};

/// The surface of a placed solid: what decides where a ray is inside. Two are equal where they are of one kind and have
/// the same planes face by face, the same centre and radius of spheres, and the same base and radius of cylinders.
#[derive(Clone, Copy, Debug, PartialEq, Eq, Hash)]
pub enum Surface {
    /// The planes of the faces 1 to 12 of a solid of eight vertices. A degenerate face has none.
    Planes([Option<Plane>; 12]),
    /// The plane of the one face of a half-space.
    HalfSpace(Plane),
    /// The centre and the radius of a sphere, in tenths of a millimetre. Its one face has number 1.
    Ball { centre: V3, radius: i64 },
    /// The faces 1 to 3 of a cylinder.
    Cylinder(RccFaces),
}

/// The one face of a placed solid that is no plane: all of a sphere, or the round side of a cylinder. Lengths are in tenths of
/// a millimetre.
#[derive(Clone, Copy, Debug, PartialEq, Eq)]
pub struct Round {
    /// The centre of a sphere, or a point of a cylinder's axis.
    pub centre: V3,
    pub radius: i64,
    /// The axis of a cylinder; `None` for a sphere.
    pub axis: Option<Axis>,
}
