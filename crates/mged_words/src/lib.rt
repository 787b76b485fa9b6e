//! Reads scripts: their lines, and the command that each line asks for.
#![tactic(auto)]

mod atoms;
mod command;
mod edit;
mod fault;
mod keep;
mod laws;
mod line;
mod list;
mod make;
mod names;
mod place;
mod put;
mod script;
mod session;
mod setting;
mod shot;
mod title;
mod views;

pub use command::ScriptCommand;
pub use laws::{each_has_a_line, each_with_numbers_has_a_line, limit_laws, order_laws};
pub use line::read_line;
pub use script::{LINE_COUNT, LINE_SIZE, SCRIPT_SIZE, ScriptFault, ScriptFlaw, read_script};
