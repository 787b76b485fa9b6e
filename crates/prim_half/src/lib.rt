//! Half-spaces with whole normals, by the operations of every kind of solid: made (`new`), put into the world (`placed`),
//! crossed by a ray (`crossed_at`), boxed (`bounds_at`) and lit (`level_at`).
#![tactic(auto)]

mod half;

pub use half::{Half, bounds_at, crossed_at, level_at};
