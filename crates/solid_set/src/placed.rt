//! Placed solids, and what is asked of them: each kind of solid has its branch here.

ghost use Rattle.std.specs.Prelude.{All, ◌≡◌, ◌∷◌, None, replicate};
ghost use Rattle.std.specs.Option.{ForSome};
ghost use Rattle.plane_geom.specs.Planes.{IsWorldPlane};
ghost use Rattle.solid_set.specs.Segments.{sides_of};
ghost use Rattle.solid_set.specs.Surfaces.{IsMade, IsBallSized, HasSizedSide};

use crate::solid::Solid;
use crate::span::{segment_of_ball, segment_of_cylinder, segment_of_faces, segment_of_half};
use crate::surface::{Round, Surface};
use lattice_core::{Box3, Placement, Ray};
use plane_geom::{Plane, ShapeFault};
use prim_arb8::Arb8;
use prim_half::Half;
use prim_rcc::Rcc;
use prim_sphere::Sphere;
use surd_order::Seg;

/// A solid in the world: what `Solid::placed` gives. Two are equal where their surfaces and their boxes are.
#[derive(Clone, Copy, Debug, PartialEq, Eq, Hash)]
pub struct Placed {
    surface: Surface,
    bounds: Box3,
    pub ghost size: { All (λ side. ForSome side IsWorldPlane) (sides_of surface) },
    pub ghost ball_size: { IsBallSized surface },
    pub ghost side_size: { HasSizedSide surface },
    pub ghost made: { ∥ IsMade surface bounds ∥₁ },
}

impl Solid {
    ghost use Rattle.std.specs.Prelude.{◌≡◌};
    ghost use Rattle.lattice_core.specs.declared.limit.TheConstants.{SHIFT};
    ghost use Rattle.lattice_core.specs.Limits.{IsWithin};
    ghost use Rattle.solid_set.specs.Surfaces.{surface_of, bounds_of, HoldsSolid};
    ghost use Rattle.lattice_core.specs.Limits.{IsAtMost};
    ghost use Rattle.lattice_core.specs.declared.limit.TheConstants.{COORD};
    ghost use Rattle.solid_set.specs.Rpps.{rpp_vertices, IsArb8Of};

    /// The box from the least to the greatest coordinates along each axis, in tenths of a millimetre, or the fault of its
    /// vertices.
    /// Vertices 1 to 4 lie at `xmin`: (ymin, zmin), (ymax, zmin), (ymax, zmax), (ymin, zmax); 5 to 8 likewise at `xmax`.
    pub fn rpp(
        xmin: i64,
        xmax: i64,
        ymin: i64,
        ymax: i64,
        zmin: i64,
        zmax: i64,
    ) -> Result<Solid, ShapeFault>
        requires xmin { IsAtMost COORD xmin }
        requires xmax { IsAtMost COORD xmax }
        requires ymin { IsAtMost COORD ymin }
        requires ymax { IsAtMost COORD ymax }
        requires zmin { IsAtMost COORD zmin }
        requires zmax { IsAtMost COORD zmax }
        ensures { IsArb8Of result (rpp_vertices xmin xmax ymin ymax zmin zmax) }
    {
        match Arb8::of_extents(xmin, xmax, ymin, ymax, zmin, zmax) {
            Ok(arb8) => Ok(Solid::Arb8(arb8)),
            Err(fault) => Err(fault),
        }
    }

    /// The solid in the world. Its shift is at most `SHIFT` in size.
    pub fn placed(&self, by: &Placement) -> Placed
        requires { IsWithin SHIFT by.now.shift }
        ensures surface { result.surface ≡ surface_of self.now by.now }
        ensures bounds { result.bounds ≡ bounds_of self.now by.now }
        ensures holds { HoldsSolid self.now by.now result.bounds }
    {
        match self {
            Solid::Arb8(arb8) => Placed::arb8(arb8, by),
            Solid::Sphere(sphere) => Placed::sphere(sphere, by),
            Solid::Half(half) => Placed::half(half, by),
            Solid::Rcc(rcc) => Placed::rcc(rcc, by),
        }
    }
}

impl Placed {
    ghost use Rattle.std.specs.Prelude.{◌≡◌, All};
    ghost use Rattle.lattice_core.specs.declared.limit.TheConstants.{SHIFT};
    ghost use Rattle.solid_set.specs.declared.solid.Solid.{Solid};
    ghost use Rattle.solid_set.specs.Surfaces.{surface_of, bounds_of, HoldsSolid, HoldsInside};
    ghost use Rattle.lattice_core.specs.declared.limit.TheConstants.{WORLD};
    ghost use Rattle.lattice_core.specs.Limits.{IsWithin};
    ghost use Rattle.std.specs.Option.{ForSome};
    ghost use Rattle.solid_set.specs.Segments.{segment_of};
    ghost use Rattle.solid_set.specs.Levels.{level_at, IsFaceOn};
    ghost use Rattle.solid_set.specs.Laws.{TellsInside, IsSound, IsSegInRange};
    ghost use Rattle.solid_set.specs.HitPlaces.{TellsByHitPlaces};
    ghost use Rattle.plane_geom.specs.Planes.{IsWorldPlane};
    ghost use Rattle.solid_set.specs.PlacedFaces.{planes_of_faces, round_of, IsRoundSized, HoldsInsideAlong};

    fn arb8(arb8: &Arb8, by: &Placement) -> Placed
        requires { IsWithin SHIFT by.now.shift }
        ensures surface { result.surface ≡ surface_of (Solid.Arb8 arb8.now) by.now }
        ensures bounds { result.bounds ≡ bounds_of (Solid.Arb8 arb8.now) by.now }
        ensures holds { HoldsSolid (Solid.Arb8 arb8.now) by.now result.bounds }
    {
        Placed {
            surface: Surface::Planes(arb8.placed(by)),
            bounds: prim_arb8::bounds_at(&arb8.vertices(), by),
        }
    }

    fn sphere(sphere: &Sphere, by: &Placement) -> Placed
        requires { IsWithin SHIFT by.now.shift }
        ensures surface { result.surface ≡ surface_of (Solid.Sphere sphere.now) by.now }
        ensures bounds { result.bounds ≡ bounds_of (Solid.Sphere sphere.now) by.now }
        ensures holds { HoldsSolid (Solid.Sphere sphere.now) by.now result.bounds }
    {
        let centre = sphere.placed(by);
        let radius = sphere.radius();
        Placed {
            surface: Surface::Ball { centre, radius },
            bounds: prim_sphere::bounds_at(centre, radius),
        }
    }

    fn half(half: &Half, by: &Placement) -> Placed
        requires { IsWithin SHIFT by.now.shift }
        ensures surface { result.surface ≡ surface_of (Solid.Half half.now) by.now }
        ensures bounds { result.bounds ≡ bounds_of (Solid.Half half.now) by.now }
        ensures holds { HoldsSolid (Solid.Half half.now) by.now result.bounds }
    {
        Placed {
            surface: Surface::HalfSpace(half.placed(by)),
            bounds: prim_half::bounds_at(),
        }
    }

    fn rcc(rcc: &Rcc, by: &Placement) -> Placed
        requires { IsWithin SHIFT by.now.shift }
        ensures surface { result.surface ≡ surface_of (Solid.Rcc rcc.now) by.now }
        ensures bounds { result.bounds ≡ bounds_of (Solid.Rcc rcc.now) by.now }
        ensures holds { HoldsSolid (Solid.Rcc rcc.now) by.now result.bounds }
    {
        Placed {
            surface: Surface::Cylinder(rcc.placed(by)),
            bounds: rcc.bounds(by),
        }
    }

    /// The part of a ray that is inside, with the faces at its ends, or `None` where there is none. It takes no memory.
    pub fn segment(&self, ray: &Ray) -> Option<Seg>
        requires { IsWithin WORLD ray.now.origin }
        ensures exact { result ≡ segment_of self.now.surface ray.now }
        ensures inside { TellsInside self.now.surface ray.now result }
        ensures hits { TellsByHitPlaces self.now.surface ray.now result }
        ensures sound { ForSome result IsSound }
    {
        self.cut(ray)
    }

    fn cut(&self, ray: &Ray) -> Option<Seg>
        requires { IsWithin WORLD ray.now.origin }
        ensures value { result ≡ segment_of self.now.surface ray.now }
        ensures range { ForSome result IsSegInRange }
    {
        match &self.surface {
            Surface::Planes(sides) => segment_of_faces(sides, ray),
            Surface::HalfSpace(plane) => segment_of_half(plane, ray),
            Surface::Ball { centre, radius } => segment_of_ball(*centre, *radius, ray),
            Surface::Cylinder(faces) => segment_of_cylinder(faces, ray),
        }
    }

    /// A closed box that holds the solid: of a solid of eight vertices the box of the vertices, of a sphere from the centre
    /// by the radius, of a half-space all of space, of a cylinder the least one.
    pub fn bounds(&self) -> Box3
        ensures value { result ≡ self.now.bounds }
        ensures holds { HoldsInside self.now.surface result }
        ensures along { HoldsInsideAlong self.now.surface result }
    {
        self.bounds
    }

    /// The brightness, from 55 to 255, where the ray meets a face of its segment, and 255 for face 0.
    pub fn level(&self, face: u8, ray: &Ray) -> u8
        requires origin { IsWithin WORLD ray.now.origin }
        requires face { IsFaceOn self.now.surface ray.now face }
        ensures { result ≡ level_at self.now.surface face ray.now }
    {
        if face == 0 {
            return 255;
        }
        match &self.surface {
            Surface::Planes(sides) => prim_arb8::level_at(sides, face, ray),
            Surface::HalfSpace(plane) => prim_half::level_at(plane, face, ray),
            Surface::Ball { centre, radius } => prim_sphere::level_at(*centre, *radius, ray),
            Surface::Cylinder(faces) => prim_rcc::level_at(faces, face, ray),
        }
    }

    /// The planes of the faces in their order, for rays that go along any vector. A degenerate face has none, and the rest of
    /// twelve are none.
    pub fn planes(&self) -> [Option<Plane>; 12]
        ensures value { result ≡ planes_of_faces self.now.surface }
        ensures size { All (λ side. ForSome side IsWorldPlane) result }
    {
        match &self.surface {
            Surface::Planes(sides) => *sides,
            Surface::HalfSpace(plane) => first_two(Some(*plane), None),
            Surface::Ball { .. } => first_two(None, None),
            Surface::Cylinder(faces) => first_two(Some(faces.base), Some(faces.top)),
        }
    }

    /// The round face, for rays that go along any vector: `None` where all faces are planes.
    pub fn round(&self) -> Option<Round>
        ensures value { result ≡ round_of self.now.surface }
        ensures size { ForSome result IsRoundSized }
    {
        match &self.surface {
            Surface::Planes(_) | Surface::HalfSpace(_) => None,
            Surface::Ball { centre, radius } => Some(Round {
                centre: *centre,
                radius: *radius,
                axis: None,
            }),
            Surface::Cylinder(faces) => Some(Round {
                centre: faces.side.centre,
                radius: faces.side.radius,
                axis: Some(faces.side.axis),
            }),
        }
    }
}

/// Twelve sides, of which all but two have no plane.
fn first_two(first: Option<Plane>, second: Option<Plane>) -> [Option<Plane>; 12]
    ensures { result ≡ first ∷ second ∷ replicate 10 None }
{
    let none = None;
    [
        first, second, none, none, none, none, none, none, none, none, none, none,
    ]
}
