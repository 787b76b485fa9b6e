//! The one list type behind every list field.
#![tactic(auto)]

mod items;

pub use items::Items;
