//! The transcript of a run: what it says, written into memory, and what is read back from its bytes.
#![tactic(auto)]

mod body;
mod write;

pub use body::Body;
pub use write::{push_accepted, push_order, push_refused};
