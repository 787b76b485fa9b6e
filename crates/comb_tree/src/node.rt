ghost use Rattle.std.specs.Prelude.{◌≡◌};
ghost use Rattle.comb_tree.specs.Nodes.{apply, leaf};
ghost use Rattle.comb_tree.specs.Lists.{member};

use lattice_core::Placement;
use name_core::Name;
use tree_forms::Op;

/// A node of a tree in postfix order: an operator's node comes after those of its left and of its right side.
#[derive(Clone, Copy, Debug, PartialEq, Eq, Hash)]
pub enum CombNode {
    /// The object of this name, which need not be there, and where it is placed.
    Leaf { name: Name, placement: Placement },
    /// The union.
    U,
    /// The intersection.
    N,
    /// The difference: the left side without the right one.
    Minus,
    /// The exclusive union: what exactly one of the two sides has.
    X,
}

/// A member of a list, with the operator before it.
#[derive(Clone, Copy, Debug, PartialEq, Eq, Hash)]
pub struct ListEntry {
    pub op: Op,
    pub name: Name,
    pub placement: Placement,
}

impl From<Op> for CombNode {
    ghost from_gives = { λ op node. node ≡ apply op };

    fn from(op: Op) -> CombNode {
        match op {
            Op::U => CombNode::U,
            Op::N => CombNode::N,
            Op::Minus => CombNode::Minus,
            Op::X => CombNode::X,
        }
    }
}

impl ListEntry {
    /// The leaf of the member.
    pub(crate) fn leaf(&self) -> CombNode
        ensures { result ≡ leaf (member self.now) }
    {
        CombNode::Leaf {
            name: self.name,
            placement: self.placement,
        }
    }
}
