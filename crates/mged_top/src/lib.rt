//! The top call: reads the words, a model and a script, runs its sessions at once or in an order that a file names, and writes
//! the transcript and the files.
#![tactic(auto)]

mod inputs;
mod load;
mod main_call;
mod order;
mod put;
mod read;
mod status;

pub use load::{LOAD_SIZE, limit_laws};
pub use main_call::{mged_main, replay_mged};
pub use status::{LoadFault, ReplayFault, Status, StatusText};
