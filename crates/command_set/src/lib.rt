//! Commands of a script, as plain data, and the refusals with which they are answered.
#![tactic(auto)]

mod checked_slant;
mod checked_view;
mod command;
mod held_object;
mod kept_pairs;
mod member_list;
mod name_list;
mod near_placement;
mod refusal;
mod setting;
mod title_text;
mod world_ray;

pub use checked_slant::CheckedSlant;
pub use checked_view::CheckedView;
pub use command::{Command, Edit, Query, Shoot};
pub use held_object::HeldObject;
pub use kept_pairs::KeptPairs;
pub use lattice_core::ViewFault;
pub use member_list::MemberList;
pub use name_list::NameList;
pub use near_placement::NearPlacement;
pub use refusal::{Refusal, RefusalText};
pub use setting::Setting;
pub use title_text::TitleText;
pub use world_ray::WorldRay;
