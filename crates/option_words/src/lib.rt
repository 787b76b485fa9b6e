//! The words after the program's name.
#![tactic(auto)]

mod command;
mod fault;
mod number;
mod options;
mod read;

pub use fault::OptionsFault;
pub use options::{Key, Model, Options};
pub use read::read_options;
