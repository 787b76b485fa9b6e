//! Spheres with whole centres and radii, by the operations of every kind of solid: made (`new`), put into the world
//! (`placed`), crossed by a ray (`crossed_at`), boxed (`bounds_at`) and lit (`level_at`).
#![tactic(auto)]

mod chord;
mod sphere;

pub use chord::{bounds_at, crossed_at, level_at};
pub use plane_geom::Chord;
pub use sphere::Sphere;
