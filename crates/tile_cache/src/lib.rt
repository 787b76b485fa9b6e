//! Kept values by their keys: the last used first, and no more than 4,096.
#![tactic(auto)]

mod cache;
mod limit;
mod named;

pub use cache::TileCache;
pub use limit::{MOST_KEPT, limit_laws};
pub use named::Named;
