//! Whole views, shot by their tiles: pictures, of which tiles that are kept are reused, reports of overlaps, and which regions the
//! pixels present.
#![tactic(auto)]

mod check;
mod executor;
mod flight;
mod job;
mod kept;
mod named;
mod picture;
mod plan;
mod present;
mod present_job;
mod work;

pub use check::check_view;
pub use executor::{Executor, Parallel};
pub use flight::{
    CheckFlight, FlightJob, PictureFlight, Teller, gather_check, gather_view, post_check, post_view,
};
pub use job::{CheckJob, TileJob};
pub use kept::{KeptTiles, SharedTile};
pub use named::{NamedPairs, SharedPairs, TilePairs};
pub use picture::{pixel_bytes, shoot_view};
pub use plan::{Plan, plan_view};
pub use present::present_view;
pub use present_job::{NamedPresents, PresentJob, SharedPresents};
pub use work::Shot;
