//! Rays, and the six directions along the axes that they have.

ghost use Rattle.std.specs.Prelude.{◌≡◌, pos};
ghost use Rattle.lattice_core.specs.declared.limit.TheConstants.{WIDE};
ghost use Rattle.lattice_core.specs.Limits.{IsUnder, IsWithin};
ghost use Rattle.lattice_core.specs.Units.{unit_of};
ghost use Rattle.lattice_core.specs.Vectors.{scaled};
ghost use Rattle.lattice_core.specs.Views.{across_of, down_of};

use crate::vector::V3;

/// A signed axis direction.
#[derive(Clone, Copy, Debug, PartialEq, Eq, Hash)]
pub enum Dir {
    PlusX,
    MinusX,
    PlusY,
    MinusY,
    PlusZ,
    MinusZ,
}

/// The half-line from a whole origin, in tenths of a millimetre, along an axis.
#[derive(Clone, Copy, Debug, PartialEq, Eq, Hash)]
pub struct Ray {
    pub origin: V3,
    pub dir: Dir,
}

impl Dir {
    /// The vector of length 1 in this direction.
    pub fn unit(self) -> V3
        ensures value { result ≡ unit_of self }
        ensures size { IsWithin (pos 1) result }
    {
        let (x, y, z) = match self {
            Dir::PlusX => (1, 0, 0),
            Dir::MinusX => (-1, 0, 0),
            Dir::PlusY => (0, 1, 0),
            Dir::MinusY => (0, -1, 0),
            Dir::PlusZ => (0, 0, 1),
            Dir::MinusZ => (0, 0, -1),
        };
        V3 { x, y, z }
    }

    /// The vector of a length in this direction.
    pub fn times(self, length: i64) -> V3
        requires { IsUnder WIDE length }
        ensures { result ≡ scaled length (unit_of self) }
    {
        let (x, y, z) = match self {
            Dir::PlusX => (length, 0, 0),
            Dir::MinusX => (-length, 0, 0),
            Dir::PlusY => (0, length, 0),
            Dir::MinusY => (0, -length, 0),
            Dir::PlusZ => (0, 0, length),
            Dir::MinusZ => (0, 0, -length),
        };
        V3 { x, y, z }
    }

    /// The direction in which the columns of a view in this direction follow one another, from left to right.
    pub fn across(self) -> Dir
        ensures { result ≡ across_of self }
    {
        match self {
            Dir::PlusX => Dir::MinusY,
            Dir::MinusX => Dir::PlusY,
            Dir::PlusY => Dir::PlusX,
            Dir::MinusY => Dir::MinusX,
            Dir::PlusZ => Dir::MinusX,
            Dir::MinusZ => Dir::PlusX,
        }
    }

    /// The direction in which the rows of a view in this direction follow one another, from the top down.
    pub fn down(self) -> Dir
        ensures { result ≡ down_of self }
    {
        match self {
            Dir::PlusX | Dir::MinusX | Dir::PlusY | Dir::MinusY => Dir::MinusZ,
            Dir::PlusZ | Dir::MinusZ => Dir::MinusY,
        }
    }
}
