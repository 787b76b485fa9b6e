//! Jobs in flight: their pieces are run by threads that serve a pool, while their owner goes on and gathers the results later.
#![tactic(auto)]

mod pool;
mod posted;
mod state;

pub use pool::{Ticket, TilePool};
