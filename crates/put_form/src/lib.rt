//! One object as a line of text, read and written.
#![tactic(auto)]

mod attrs;
mod comb;
mod comb_keys;
mod fault;
mod keep;
mod kind;
mod name;
mod pairs;
mod put;
mod solid;
mod write;
mod write_attr;
mod write_number;
mod write_solid;
mod write_tree;

pub use fault::PutFault;
pub use keep::read_keep;
pub use kind::Kind;
pub use put::read_put;
pub use write::{push_kept_line, push_put_line, write_put};
