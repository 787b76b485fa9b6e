//! What the types of names and objects keep, told to a proof. The functions here do nothing: the type of a name keeps that
//! its bytes are a name, but a proof knows it of a name inside of an object only once a call has lent it, and the contract of
//! each function says it of all names that its argument has.
ghost use Rattle.std.specs.Prelude.{All};
ghost use Rattle.object_set.specs.Named.{HasName, HaveNames, HasKey, IsNamedEntry};

use crate::kept::KeptAttr;
use crate::object::{Body, Object};
use comb_tree::CombNode;
use name_core::Name;

fn recall_name(node: &CombNode)
    ensures { HasName node.now }
{
    if let CombNode::Leaf { name, .. } = node {
        let _bytes = name.bytes();
    }
}

/// The names of leaves are names.
pub fn recall_names(nodes: &[CombNode])
    ensures { All HasName nodes.now }
{
    for node in nodes {
        recall_name(node);
    }
}

/// The names of the members of a body are names.
pub fn recall_members(body: &Body)
    ensures { HaveNames body.now }
{
    if let Body::Comb { tree, .. } = body {
        recall_names(tree.nodes());
    }
}

/// The keys of kept attributes are names.
pub fn recall_keys(kept: &[KeptAttr])
    ensures { All HasKey kept.now }
{
    for attribute in kept {
        let _bytes = attribute.name.bytes();
    }
}

/// The name of an object and the names in it are names, and its attributes can be kept.
pub fn recall_entry(name: &Name, object: &Object)
    ensures { IsNamedEntry (name.now, object.now) }
{
    let _bytes = name.bytes();
    recall_members(object.body());
    recall_keys(object.kept());
}
