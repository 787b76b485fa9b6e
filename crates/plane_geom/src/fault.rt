//! Why numbers make no solid, for every kind of solid.

use thiserror::Error;

/// Why numbers make no solid.
#[derive(Clone, Copy, Debug, PartialEq, Eq, Error)]
pub enum ShapeFault {
    /// All vertices lie in one plane.
    #[error("flat")]
    Flat,
    /// The face of this number has a vertex off its plane.
    #[error("face {0} is not planar")]
    NotPlanar(u8),
    /// The face of this number has vertices strictly on both sides of its plane.
    #[error("face {0} is not convex")]
    NotConvex(u8),
    /// The radius is below 1.
    #[error("radius below 1")]
    Radius,
    /// The normal is zero.
    #[error("zero normal")]
    ZeroNormal,
    /// Not exactly one component of the height differs from 0.
    #[error("height not along one axis")]
    Axis,
}
