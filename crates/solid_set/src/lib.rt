//! Solids: placed in the world, and cut by rays into segments.
#![tactic(auto)]

mod crossed;
mod laws;
mod placed;
mod solid;
mod span;
mod surface;

pub use crossed::Crossed;
pub use laws::{face_law, limit_laws, placing_law, ray_laws, scale_law, separation_law, times_law};
pub use placed::Placed;
pub use solid::Solid;
pub use surface::{Round, Surface};
