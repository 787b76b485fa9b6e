//! The hash of what a region is wherever it stands.
ghost use Rattle.std.specs.Prelude.{◌≡◌, fold, flat_map, map};
ghost use Rattle.std.specs.Hash as fed;
ghost use Rattle.shot_core.specs.Digests.{node_input, instance_input, body_input, body_digest};
ghost use Rattle.shot_core.specs.Prepared.{instance_of};

use bool_weave::{MaskNode, MaskTree};
use region_attr::Rgb;
use solid_set::Placed;
use std::hash::{FoldHasher, Hash, Hasher};

fn feed_node<H: Hasher>(node: &MaskNode, state: &mut H)
    ensures { state.new ≡ fold H.write state.old (node_input node.now) }
{
    match node {
        MaskNode::Leaf(leaf) => {
            state.write_u8(0);
            state.write_u32(*leaf);
        }
        MaskNode::Never => state.write_u8(1),
        MaskNode::U => state.write_u8(2),
        MaskNode::N => state.write_u8(3),
        MaskNode::Minus => state.write_u8(4),
        MaskNode::X => state.write_u8(5),
    }
}

fn feed_nodes<H: Hasher>(nodes: &[MaskNode], state: &mut H)
    ensures { state.new ≡ fold H.write state.old (fed.slice node_input nodes.now) }
{
    state.write_usize(nodes.len());
    for node in nodes {
        feed_node(node, state);
    }
}

fn feed_solids<H: Hasher>(solids: &[Placed], state: &mut H)
    ensures { state.new ≡ fold H.write state.old (fed.slice instance_input (map instance_of solids.now)) }
{
    solids.hash(state);
}

fn feed_body<H: Hasher>(
    id: u32,
    air: u32,
    rgb: &Rgb,
    tree: &MaskTree,
    solids: &[Placed],
    state: &mut H,
)
    ensures { state.new ≡ fold H.write state.old (body_input (record { id = id; air = air; rgb = rgb.now; tree = tree.now; instances = map instance_of solids.now })) }
{
    state.write_u32(id);
    state.write_u32(air);
    rgb.hash(state);
    feed_nodes(tree.nodes(), state);
    feed_solids(solids, state);
}

/// The hash of a region of these parts.
#[tactic(auto, unfolding(crate::specs::Digests::body_digest))]
pub(crate) fn body_digest(id: u32, air: u32, rgb: &Rgb, tree: &MaskTree, solids: &[Placed]) -> u64
    ensures { result ≡ body_digest (record { id = id; air = air; rgb = rgb.now; tree = tree.now; instances = map instance_of solids.now }) }
{
    let mut state = FoldHasher::default();
    feed_body(id, air, rgb, tree, solids, &mut state);
    state.finish()
}
