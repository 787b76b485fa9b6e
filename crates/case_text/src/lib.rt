//! Files of cases: what stands on a line, and the bytes that a text of a case stands for.
//! These calls serve the programs that run cases, and promise no more than that they are safe and end.
#![tactic(auto)]

mod bytes;
mod fault;
mod line;
mod row;
mod run;
mod shown;

pub use bytes::{expand, expanded};
pub use fault::CaseFault;
pub use line::{Lines, first_word, number_of, numbers_of, words_of};
pub use run::{Tables, Tallies, finish, run_tables};
pub use shown::Shown;
