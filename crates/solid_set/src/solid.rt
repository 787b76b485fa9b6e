//! The kinds of solids.

use prim_arb8::Arb8;
use prim_half::Half;
use prim_rcc::Rcc;
use prim_sphere::Sphere;

/// A solid where it was made, before it is placed.
#[derive(Clone, Copy, Debug)]
pub enum Solid {
    Arb8(Arb8),
    Sphere(Sphere),
    Half(Half),
    Rcc(Rcc),
}
