//! The forms of a boolean tree: the tree itself, its postfix list, and what both come to.
#![tactic(auto)]

ghost use Rattle.std.specs.Prelude.{◌≡◌};
ghost use Rattle.tree_forms.specs.Trees.{joined};

/// An operator of a boolean tree, over a left and a right side.
#[derive(Clone, Copy, Debug, PartialEq, Eq, Hash)]
pub enum Op {
    /// The union.
    U,
    /// The intersection.
    N,
    /// The difference: the left side without the right one.
    Minus,
    /// The exclusive union: what exactly one of the two sides has.
    X,
}

impl Op {
    /// Whether the operator's node holds, from whether its sides do.
    pub fn join(self, left: bool, right: bool) -> bool
        ensures { result ≡ joined self left right }
    {
        match self {
            Op::U => left || right,
            Op::N => left && right,
            Op::Minus => left && !right,
            Op::X => left != right,
        }
    }
}
