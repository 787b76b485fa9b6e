ghost use Rattle.std.specs.Prelude.{◌≡◌, ◌≤◌, filter, length};
ghost use Rattle.comb_tree.specs.Steps.{is_at};
ghost use Rattle.object_set.specs.Objects.{member_names};
ghost use Rattle.object_pages.specs.Members.{node_names, times};

use comb_tree::CombNode;
use name_core::Name;
use object_set::{Body, Object};

fn has_name(node: &CombNode, wanted: Name) -> bool
    ensures { result ≡ is_at wanted node.now }
{
    match node {
        CombNode::Leaf { name, .. } => *name == wanted,
        _ => false,
    }
}

/// How many leaves have the name.
fn count_named(nodes: &[CombNode], name: Name) -> usize
    ensures { result ≡ length (filter (is_at name) nodes.now) }
{
    nodes.iter().filter(|node| has_name(node, name)).count()
}

/// How many leaves of the object have the name.
pub(crate) fn leaves_named(object: &Object, name: &Name) -> usize
    ensures { result ≡ times (member_names object.now.body) name.now }
{
    match object.body() {
        Body::Solid(_) => 0,
        Body::Comb { tree, .. } => count_named(tree.nodes(), *name),
    }
}

/// The nodes of a combination's tree; a solid has none.
pub fn nodes_of(object: &Object) -> &[CombNode]
    ensures names { node_names result.now ≡ member_names object.now.body }
    ensures few { length (member_names object.now.body) ≤ 4096 }
{
    match object.body() {
        Body::Solid(_) => &[],
        Body::Comb { tree, .. } => tree.nodes(),
    }
}
