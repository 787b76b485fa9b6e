//! A list of named objects on pages that copies share, with who refers to whom.
#![tactic(auto)]

mod change;
mod limit;
mod members;
mod name_set;
mod object_pages;
mod references;
mod renaming;
mod shared_tally;
mod tally;
mod users;

pub use limit::{OBJECTS, limit_laws};
pub use members::nodes_of;
pub use name_set::NameSet;
pub use object_pages::ObjectPages;
