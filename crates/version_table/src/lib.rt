//! One history of edits and looks, for any machine.
#![tactic(auto)]

mod book;
mod machine;
mod rule;
mod steps;
mod table;

pub use book::Entry;
pub use machine::{Machine, Stepped};
pub use table::{Closed, Edited, Pass, Snapshot, VersionTable};
