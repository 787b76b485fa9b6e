//! Planes with whole normals: through three points, placed, and crossed by rays along the axes. Chords of rays through
//! what is round.
#![tactic(auto)]

mod chord;
mod fault;
mod limit;
mod measure;
mod plane;

pub use chord::{Chord, apart_from, half_chord, length_squared, squared};
pub use fault::ShapeFault;
pub use limit::{GAP, NORMAL, OFFSET, REMOTE, WORLD_OFFSET, limit_laws};
pub use plane::{Crossing, Plane};
