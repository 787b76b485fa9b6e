//! Names of objects, members, files and kept attributes.
#![tactic(auto)]

mod limit;
mod name;

pub use limit::{MOST_BYTES, limit_laws};
pub use name::{Name, NameFault};
