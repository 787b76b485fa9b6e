//! A large model that a number makes, and a script for it.
#![tactic(auto)]

mod demo;
mod draws;
mod names;
mod objects;
mod union;

pub use demo::{Demo, make_demo};
