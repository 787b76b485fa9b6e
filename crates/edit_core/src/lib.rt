//! Applies edits to a directory, in its place or beside it.
#![tactic(auto)]

mod answers;
mod applying;
mod extensions;
mod law;
mod modeller;
mod objects;
mod trees;

pub use applying::apply;
pub use law::{list_laws, machine_laws, refusal_laws};
pub use modeller::Modeller;
