//! Laws of texts: what is written reads as the same.
#![tactic(auto)]

mod line;
mod text;

pub use line::put_line_reads_again;
pub use text::{text_reads_again, texts_tell_directories_apart};
