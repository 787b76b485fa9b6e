//! Runs of a script: its commands answered, all sessions at the same time or one after the other in an order that a file
//! names, and the transcript of the answers.
#![tactic(auto)]

mod at_once;
mod order;
mod room;
mod run;
mod tasks;

pub use at_once::run_at_once;
pub use order::{ORDER_SIZE, order_laws, read_order};
pub use run::{Run, run_in_order};
