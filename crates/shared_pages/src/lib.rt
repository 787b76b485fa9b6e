//! Values by name, held so that a copy shares them all and a change copies only what it touches.
#![tactic(auto)]

mod again;
mod blank;
mod bucket;
mod edit;
mod group;
mod hash;
mod limit;
mod map;
mod open;
mod page;
mod page_list;
mod pairs;
mod put;
mod root;
mod search;
mod shares;
mod spot;
mod walk;

pub use again::Again;
pub use limit::{MOST_PAIRS, limit_laws};
pub use map::SharedMap;
pub use open::Open;
pub use page::Page;
pub use page_list::PageList;
pub use pairs::Pairs;
