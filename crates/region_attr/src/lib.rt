//! Attributes of combinations, set by key and value.
#![tactic(auto)]

mod attr;
mod colour;
mod key;
mod limit;
mod value;

pub use attr::{Attr, AttrFault, Rgb};
pub use limit::limit_laws;
