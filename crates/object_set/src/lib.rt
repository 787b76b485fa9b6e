//! Objects of the directory: solids and combinations, with the attributes that are kept for them.
#![tactic(auto)]

mod keeping;
mod kept;
mod object;
mod recall;
mod text_value;

pub use kept::{KeptAttr, KeptAttrs, have_text_values};
pub use object::{Body, Object};
pub use recall::{recall_entry, recall_keys, recall_members, recall_names};
pub use text_value::{is_text_value, limit_laws};
