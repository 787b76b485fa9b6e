//! Where two lists of nodes differ: between the nodes that stand at the front of both and those at the end of both.
ghost use Rattle.std.specs.Prelude.{◌≡◌, ◌≤◌, ◌+◌, true, length, take, drop, ◌-◌};
ghost use Rattle.object_pages.specs.Members.{name_of_node, node_names};

use comb_tree::CombNode;

/// How many nodes at the front, and how many others at the end, name the same in both lists.
#[derive(Clone, Copy)]
pub(crate) struct Change {
    pub(crate) front: usize,
    pub(crate) back: usize,
}

/// Whether both nodes are leaves of one name, or none is a leaf.
fn same_node(one: &CombNode, other: &CombNode) -> bool
    ensures { result ≡ true → name_of_node one.now ≡ name_of_node other.now }
{
    match (one, other) {
        (CombNode::Leaf { name: first, .. }, CombNode::Leaf { name: second, .. }) => *first
            == *second,
        (CombNode::Leaf { .. }, _) => false,
        (_, CombNode::Leaf { .. }) => false,
        _ => true,
    }
}

/// How many nodes at the front name the same.
fn same_front(one: &[CombNode], other: &[CombNode]) -> usize
    ensures one { result ≤ length one.now }
    ensures other { result ≤ length other.now }
    ensures same { node_names (take result one.now) ≡ node_names (take result other.now) }
{
    let mut count = 0;
    while count < one.len() && count < other.len() && same_node(&one[count], &other[count]) {
        count += 1;
    }
    count
}

/// How many nodes at the end name the same.
fn same_back(one: &[CombNode], other: &[CombNode]) -> usize
    ensures one { result ≤ length one.now }
    ensures other { result ≤ length other.now }
    ensures same { node_names (drop (length one.now - result) one.now) ≡ node_names (drop (length other.now - result) other.now) }
{
    let mut count = 0;
    while count < one.len()
        && count < other.len()
        && same_node(&one[one.len() - 1 - count], &other[other.len() - 1 - count])
    {
        count += 1;
    }
    count
}

/// Where the lists differ.
pub(crate) fn change_of(before: &[CombNode], after: &[CombNode]) -> Change
    ensures before { result.front + result.back ≤ length before.now }
    ensures after { result.front + result.back ≤ length after.now }
    ensures front { node_names (take result.front before.now) ≡ node_names (take result.front after.now) }
    ensures back { node_names (drop (length before.now - result.back) before.now) ≡ node_names (drop (length after.now - result.back) after.now) }
{
    let front = same_front(before, after);
    let back = same_back(&before[front..], &after[front..]);
    Change { front, back }
}
