//! Scenes: what a list of names in a directory comes to as regions that rays can be shot at.
#![tactic(auto)]

mod body;
mod colour;
mod context;
mod expand;
mod expansion;
mod fault;
mod laws;
mod memo;
mod part;
mod path;
mod preparing;
mod size;
#[cfg(test)]
mod tests;
mod walk;

pub use fault::PrepFault;
pub use laws::{point_laws, region_laws};
pub use memo::Memo;
pub use preparing::{prepare, prepare_again};
pub use size::{MOST_SIZE, limit_laws};
