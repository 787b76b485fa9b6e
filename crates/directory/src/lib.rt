//! The directory: a title and a list of named objects, without cycles and at most sixteen combinations deep.
#![tactic(auto)]

mod contents;
mod depths;
mod directory;
mod draft;
mod fault;
mod gathered;
mod levels;
mod limit;
mod recall;
mod relax;
mod settling;
mod walk;

pub use directory::Directory;
pub use draft::{Draft, DraftFault};
pub use fault::DirFault;
pub use limit::limit_laws;
pub use recall::recall_entries;
