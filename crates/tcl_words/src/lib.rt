//! Words of a text: atoms and groups in braces, whole numbers, lengths in tenths, and words written again.
#![tactic(auto)]

mod bytes;
mod class;
mod fault;
mod group_text;
mod groups;
mod limit;
mod number;
mod read;
mod step;
mod token;
mod write;

pub use bytes::{is_blank, is_word};
pub use fault::WordFault;
pub use group_text::is_group_text;
pub use groups::{atom_text, inside, raw_text, top_words};
pub use limit::limit_laws;
pub use number::{read_number, read_tenths};
pub use read::{Words, read_words};
pub use token::{Kind, Token, Word};
pub use write::write_words;
