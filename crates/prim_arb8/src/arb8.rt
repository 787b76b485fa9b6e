//! Solids of eight vertices: made, the planes of their faces, and put into the world.

ghost use Rattle.std.specs.Prelude.{◌≡◌, ◌≤◌, All, Some, None};
ghost use Rattle.std.specs.Option.{ForSome};
ghost use Rattle.lattice_core.specs.declared.limit.TheConstants.{COORD};
ghost use Rattle.lattice_core.specs.Limits.{IsWithin};
ghost use Rattle.plane_geom.specs.Planes.{IsSolidPlane};
ghost use Rattle.prim_arb8.specs.Faces.{first_fault, cases_of};

use crate::face::{fault_of, plane_of};
use crate::rpp::rpp_vertices;
use lattice_core::{Placement, V3};
use plane_geom::{Plane, ShapeFault};
use std::marker::Model;

/// A convex solid of eight vertices: the points that the planes of its faces and of the box of its vertices hold.
/// The faces 1 to 6 have the vertices 1234, 5678, 1265, 2376, 3487 and 4158, and vertices may coincide. The faces 7 to
/// 12 are those of the box: x at most, x at least, y at most, y at least, z at most and z at least. It keeps its vertices
/// alone, and planes are found where they are asked for, so that an object is small. Contracts see the vertices.
#[derive(Clone, Copy, Debug)]
pub struct Arb8 {
    vertices: [V3; 8],
}

impl Model for Arb8 {
    ghost use Rattle.prim_arb8.specs.Solids.{EightVertices, IsArb8};

    ghost Value = { EightVertices };

    ghost view = { λ s. record { vertices = s.vertices } };

    ghost invariant = { λ s. IsArb8 s.vertices };

    ghost inverse = { λ solid. record { vertices = solid.vertices } };
}

impl Arb8 {
    ghost use Rattle.std.specs.Prelude.{◌≡◌, ◌↔◌, ◌≤◌, All, IfSome, MatchResult, Result, Err, Some, None, length};
    ghost use Rattle.std.specs.Option.{ForSome, option_map};
    ghost use Rattle.lattice_core.specs.declared.limit.TheConstants.{COORD, SHIFT};
    ghost use Rattle.lattice_core.specs.Limits.{IsAtMost, IsWithin};
    ghost use Rattle.plane_geom.specs.Planes.{IsSolidPlane, IsWorldPlane, placed_plane};
    ghost use Rattle.plane_geom.specs.declared.fault.ShapeFault.{ShapeFault};
    ghost use Rattle.prim_arb8.specs.Faces.{first_fault, cases_of, plane_at, planes_of};
    ghost use Rattle.prim_arb8.specs.Solids.{IsArb8};
    ghost use Rattle.prim_arb8.specs.Placing.{placed_sides};
    ghost use Rattle.prim_arb8.specs.Rpps.{IsMadeOf, rpp_vertices};
    ghost use Rattle.prim_arb8.specs.Laws.{IsFlat, IsFaceLaw};

    /// The solid of these vertices, or the first fault: `Flat`, then face by face `NotPlanar` and `NotConvex`.
    pub fn new(v: [V3; 8]) -> Result<Arb8, ShapeFault>
        requires { All (IsWithin COORD) v }
        ensures flat { (result ≡ Err ShapeFault.Flat) ↔ IsFlat v }
        ensures fault { MatchResult result (λ arb8. first_fault (cases_of v) ≡ None) (λ e. first_fault (cases_of v) ≡ Some e) }
        ensures vertices { MatchResult result (λ arb8. arb8.vertices ≡ v) (λ e. Unit {0}) }
    {
        match fault_of(&v) {
            Some(fault) => Err(fault),
            None => Ok(Arb8 { vertices: v }),
        }
    }

    /// The box from the least to the greatest coordinates along each axis, in tenths of a millimetre, or the fault of its
    /// vertices.
    /// Vertices 1 to 4 lie at `xmin`: (ymin, zmin), (ymax, zmin), (ymax, zmax), (ymin, zmax); 5 to 8 likewise at `xmax`.
    pub fn of_extents(
        xmin: i64,
        xmax: i64,
        ymin: i64,
        ymax: i64,
        zmin: i64,
        zmax: i64,
    ) -> Result<Arb8, ShapeFault>
        requires xmin { IsAtMost COORD xmin }
        requires xmax { IsAtMost COORD xmax }
        requires ymin { IsAtMost COORD ymin }
        requires ymax { IsAtMost COORD ymax }
        requires zmin { IsAtMost COORD zmin }
        requires zmax { IsAtMost COORD zmax }
        ensures { IsMadeOf result (rpp_vertices xmin xmax ymin ymax zmin zmax) }
    {
        Arb8::new(rpp_vertices(xmin, xmax, ymin, ymax, zmin, zmax))
    }

    /// The vertices 1 to 8.
    pub fn vertices(&self) -> [V3; 8]
        ensures value { result ≡ self.now.vertices }
        ensures eight { length result ≡ 8 }
        ensures sound { first_fault (cases_of result) ≡ None }
        ensures lawful { IsArb8 result }
        ensures size { All (IsWithin COORD) result }
    {
        self.vertices
    }

    /// The outward plane of a face from 1 to 12, or `None` where the face is degenerate.
    pub fn plane(&self, face: u8) -> Option<Plane>
        requires { (1 ≤ face) × (face ≤ 12) }
        ensures value { result ≡ plane_at self.now.vertices face }
        ensures law { IsFaceLaw self.now.vertices face result }
        ensures size { ForSome result IsSolidPlane }
    {
        plane_of(&self.vertices, face)
    }

    fn placed_side(&self, face: u8, by: &Placement) -> Option<Plane>
        requires face { (1 ≤ face) × (face ≤ 12) }
        requires shift { IsWithin SHIFT by.now.shift }
        ensures value { result ≡ option_map (placed_plane by.now) (plane_at self.now.vertices face) }
        ensures size { IfSome result IsWorldPlane }
    {
        match self.plane(face) {
            Some(plane) => Some(plane.placed(by)),
            None => None,
        }
    }

    /// The solid in the world: the planes that the placement takes those of the faces 1 to 12 to.
    pub fn placed(&self, by: &Placement) -> [Option<Plane>; 12]
        requires { IsWithin SHIFT by.now.shift }
        ensures value { result ≡ placed_sides by.now (planes_of self.now.vertices) }
        ensures size { All (λ side. ForSome side IsWorldPlane) result }
    {
        [
            self.placed_side(1, by),
            self.placed_side(2, by),
            self.placed_side(3, by),
            self.placed_side(4, by),
            self.placed_side(5, by),
            self.placed_side(6, by),
            self.placed_side(7, by),
            self.placed_side(8, by),
            self.placed_side(9, by),
            self.placed_side(10, by),
            self.placed_side(11, by),
            self.placed_side(12, by),
        ]
    }
}
