//! Sessions at once: what sessions were answered at their own places of one history is one run.
#![tactic(auto)]

mod laws;

pub use laws::merge_laws;
