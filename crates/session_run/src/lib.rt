//! One session: what its commands are answered, and its run over a table that other sessions share.
#![tactic(auto)]

mod answer;
mod check;
mod flight;
mod keep;
mod laws;
mod limit;
mod picture;
mod present;
mod session;

pub use answer::{Answer, Book, Found, Own, answer_command, answer_look};
pub use keep::Keep;
pub use laws::{run_laws, shot_law, slant_law};
pub use limit::{MOST_USED, limit_laws};
pub use session::Session;
