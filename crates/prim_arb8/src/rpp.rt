//! The vertices of a box along the axes.

ghost use Rattle.std.specs.Prelude.{◌≡◌, All};
ghost use Rattle.lattice_core.specs.declared.limit.TheConstants.{COORD};
ghost use Rattle.lattice_core.specs.Limits.{IsAtMost, IsWithin};
ghost use Rattle.lattice_core.specs.Vectors.{vector};
ghost use Rattle.prim_arb8.specs.Rpps.{rpp_vertices};

use lattice_core::V3;

fn vector(x: i64, y: i64, z: i64) -> V3
    requires x { IsAtMost COORD x }
    requires y { IsAtMost COORD y }
    requires z { IsAtMost COORD z }
    ensures value { result ≡ vector x y z }
    ensures size { IsWithin COORD result }
{
    V3 { x, y, z }
}

/// The vertices 1 to 8 of the box between these coordinates.
pub fn rpp_vertices(xmin: i64, xmax: i64, ymin: i64, ymax: i64, zmin: i64, zmax: i64) -> [V3; 8]
    requires xmin { IsAtMost COORD xmin }
    requires xmax { IsAtMost COORD xmax }
    requires ymin { IsAtMost COORD ymin }
    requires ymax { IsAtMost COORD ymax }
    requires zmin { IsAtMost COORD zmin }
    requires zmax { IsAtMost COORD zmax }
    ensures value { result ≡ rpp_vertices xmin xmax ymin ymax zmin zmax }
    ensures size { All (IsWithin COORD) result }
{
    [
        vector(xmin, ymin, zmin),
        vector(xmin, ymax, zmin),
        vector(xmin, ymax, zmax),
        vector(xmin, ymin, zmax),
        vector(xmax, ymin, zmin),
        vector(xmax, ymax, zmin),
        vector(xmax, ymax, zmax),
        vector(xmax, ymin, zmax),
    ]
}
