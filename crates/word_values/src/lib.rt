//! What words of a text stand for: atoms, numbers, matrices, solids by their numbers, and boolean trees.
#![tactic(auto)]

mod atoms;
mod given;
mod matrix;
mod reading;
mod solid;
mod solid_form;
mod tree;
mod value;

pub use atoms::{
    NumberKind, NumberList, WHOLE_NUMBER, coordinate_kind, group_atoms, limit_laws, normal_kind,
    plain_kind, point_kind, word_atoms,
};
pub use matrix::placement_of;
pub use solid::{SolidKind, vector_at};
pub use solid_form::{Key, SolidForm, vector_key};
pub use tree::{TreeFault, read_tree};
pub use value::value_text;
