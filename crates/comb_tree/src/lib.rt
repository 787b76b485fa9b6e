//! Boolean trees over named members: their postfix lists, and the lists of members that users give.
#![tactic(auto)]

mod changes;
mod fault;
mod limit;
mod list;
mod names;
mod node;
mod tree;

pub use fault::TreeFault;
pub use limit::{LEAVES, limit_laws};
pub use node::{CombNode, ListEntry};
pub use tree::CombTree;
pub use tree_forms::Op;
