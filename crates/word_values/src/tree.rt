//! Boolean trees that are given as words.
ghost use Rattle.std.specs.Prelude.{◌≡◌, ◌<◌, ◌^◌, length};
ghost use Rattle.tcl_words.specs.TopWords.{AreTokensIn};
ghost use Rattle.word_values.specs.Groups.{words_of_tokens};
ghost use Rattle.word_values.specs.Trees.{IsTreeRead};

use crate::given::tree_of;
use crate::reading::given_nodes;
use comb_tree::CombTree;
use memory_core::Memory;
use std::alloc::{AllocError, AllocFailed, Global};
use tcl_words::Token;
use thiserror::Error;

/// Why words are no tree. The first that holds is answered.
#[derive(Clone, Copy, Debug, PartialEq, Eq, Error)]
pub enum TreeFault {
    /// They are not in the form of a tree, or have over 4,096 leaves.
    #[error("not in the form of a tree")]
    Form,
    /// A leaf's name is none.
    #[error("not a name")]
    Name,
    /// A number of a matrix is out of its range, or a matrix is no placement, or its shift is too far.
    #[error("not a placement")]
    Number,
    /// There was no memory.
    #[error("out of memory")]
    Memory,
}

impl From<Memory> for TreeFault {
    ghost use Rattle.std.specs.Prelude.{◌≡◌};
    ghost use Rattle.word_values.specs.declared.tree.TreeFault.TheVariants as faults;

    ghost from_gives = { λ _ e. e ≡ faults.Memory };

    fn from(_error: Memory) -> TreeFault {
        TreeFault::Memory
    }
}

impl From<AllocError> for TreeFault {
    ghost use Rattle.std.specs.Prelude.{◌≡◌};
    ghost use Rattle.word_values.specs.declared.tree.TreeFault.TheVariants as faults;

    ghost from_gives = { λ _ e. e ≡ faults.Memory };

    fn from(_error: AllocError) -> TreeFault {
        TreeFault::Memory
    }
}

impl<T: Drop> From<AllocFailed<T>> for TreeFault {
    ghost use Rattle.std.specs.Prelude.{◌≡◌};
    ghost use Rattle.word_values.specs.declared.tree.TreeFault.TheVariants as faults;

    ghost from_gives = { λ _ e. e ≡ faults.Memory };

    fn from(_error: AllocFailed<T>) -> TreeFault {
        TreeFault::Memory
    }
}

/// The tree that the words between a group's braces spell, or the first fault. The tokens are those between the braces;
/// they are some of that text.
pub fn read_tree(alloc: Global, text: &[u8], tokens: &[Token]) -> Result<CombTree, TreeFault>
    requires short { length text.now < 2 ^ 31 }
    requires tokens { AreTokensIn (length text.now) tokens.now }
    ensures { IsTreeRead result (words_of_tokens text.now tokens.now) }
{
    let nodes = given_nodes(alloc, text, tokens)?;
    tree_of(alloc, &nodes)
}
