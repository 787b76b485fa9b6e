//! Short texts in buffers of a fixed room.
#![tactic(auto)]

mod text;

pub use text::FixedText;
