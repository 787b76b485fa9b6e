//! Positions in range, with their exact order as the order of std's sorts and maps.
#![tactic(auto)]

mod ranged;

pub use ranged::RangedPos;
