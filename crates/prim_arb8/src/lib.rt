//! Convex solids of eight vertices and six flat faces, by the operations of every kind of solid: made (`new`,
//! `of_extents`), put into the world (`placed`), crossed by a ray (`crossed_at`), boxed (`bounds_at`) and lit
//! (`level_at`).
#![tactic(auto)]

mod arb8;
mod bounds;
mod corner;
mod face;
mod rpp;
mod side;

pub use arb8::Arb8;
pub use bounds::bounds_at;
pub use side::{crossed_at, level_at};
