//! A whole directory as a text, read and written.
#![tactic(auto)]

mod command;
mod cut;
mod fault;
mod keep;
mod kinds;
mod reader;
mod settle;
mod whole;
mod writing;

pub use fault::{AscFault, AscKind};
pub use whole::read_asc;
pub use writing::write_asc;
