ghost use Rattle.std.specs.Prelude.{◌≡◌, Option, IfOk, OnOk, All};
ghost use Rattle.std.specs.HashMap.{get};
ghost use Rattle.std.specs.Option.{option_copied};
ghost use Rattle.name_core.specs.Same.{same_name};
ghost use Rattle.directory.specs.Walks.{IsSound};
ghost use Rattle.scene_prep.specs.Sizes.{size_of_name, names_size, told_size, most_size};
ghost use Rattle.scene_prep.specs.declared.size.TheConstants.{MOST_SIZE};
ghost use Rattle.scene_prep.specs.Levels.{IsShallow, StandsWithin, node_size, nodes_size, AreSizes};

use comb_tree::CombNode;
use directory::Directory;
use memory_core::Memory;
use name_core::Name;
use object_set::Body;
use std::alloc::Global;
use std::collections::HashMap;

/// The greatest size that is prepared.
pub const MOST_SIZE: u32 = 65_536;

/// How many combinations lie one in the other at most.
pub(crate) const LEVELS: u32 = 16;

/// The sizes of names that are known, each with the greatest number where it is more.
type Sizes = HashMap<Name, u32>;

/// The size of a name, where it is known.
fn known_size(sizes: &Sizes, name: &Name) -> Option<u32>
    ensures { result ≡ get same_name sizes.now name.now }
{
    sizes.get(name).copied()
}

/// Keeps the size of a name.
fn keep_size(sizes: &mut Sizes, directory: &Directory, name: &Name, size: u32) -> Result<(), Memory>
    requires known { AreSizes directory.now.objects (get same_name sizes.old) }
    requires size { size ≡ told_size (size_of_name directory.now.objects name.now) }
    ensures { OnOk result (AreSizes directory.now.objects (get same_name sizes.new)) }
{
    sizes.insert(*name, size)?;
    Ok(())
}

/// The size of a node, below which at most `levels` combinations lie one in the other.
#[cycle(size)]
fn size_of_node(
    directory: &Directory,
    sizes: &mut Sizes,
    node: &CombNode,
    levels: u32,
) -> Result<u32, Memory>
    requires sound { IsSound directory.now.objects }
    requires within { StandsWithin directory.now.objects levels node.now }
    requires known { AreSizes directory.now.objects (get same_name sizes.old) }
    ensures size { IfOk result (λ size. size ≡ told_size (node_size directory.now.objects node.now)) }
    ensures known { OnOk result (AreSizes directory.now.objects (get same_name sizes.new)) }
{
    match node {
        CombNode::Leaf { name, .. } => size_of_name(directory, sizes, name, levels),
        _ => Ok(0),
    }
}

/// The size of these nodes.
#[cycle(size)]
fn size_of_nodes(
    directory: &Directory,
    sizes: &mut Sizes,
    nodes: &[CombNode],
    levels: u32,
) -> Result<u32, Memory>
    requires sound { IsSound directory.now.objects }
    requires within { All (StandsWithin directory.now.objects levels) nodes.now }
    requires known { AreSizes directory.now.objects (get same_name sizes.old) }
    ensures size { IfOk result (λ size. size ≡ told_size (nodes_size directory.now.objects nodes.now)) }
    ensures known { OnOk result (AreSizes directory.now.objects (get same_name sizes.new)) }
{
    let mut total = 0u32;
    for node in nodes {
        total = total.saturating_add(size_of_node(directory, sizes, node, levels)?);
    }
    Ok(total)
}

/// The size of what is there under a name.
#[cycle(size)]
fn size_of_object(
    directory: &Directory,
    sizes: &mut Sizes,
    name: &Name,
    levels: u32,
) -> Result<u32, Memory>
    requires sound { IsSound directory.now.objects }
    requires shallow { IsShallow directory.now.objects levels name.now }
    requires known { AreSizes directory.now.objects (get same_name sizes.old) }
    ensures size { IfOk result (λ size. size ≡ told_size (size_of_name directory.now.objects name.now)) }
    ensures known { OnOk result (AreSizes directory.now.objects (get same_name sizes.new)) }
{
    match directory.get(name) {
        Some(object) => match object.body() {
            Body::Solid(_) => Ok(1),
            Body::Comb { tree, .. } => {
                let nodes = tree.nodes();
                if nodes.is_empty() {
                    return Ok(1);
                }
                size_of_nodes(directory, sizes, nodes, levels - 1)
            }
        },
        None => Ok(1),
    }
}

/// The size of a name, from which each walk has at most `levels` combinations.
#[cycle(size)]
fn size_of_name(
    directory: &Directory,
    sizes: &mut Sizes,
    name: &Name,
    levels: u32,
) -> Result<u32, Memory>
    requires sound { IsSound directory.now.objects }
    requires shallow { IsShallow directory.now.objects levels name.now }
    requires known { AreSizes directory.now.objects (get same_name sizes.old) }
    ensures size { IfOk result (λ size. size ≡ told_size (size_of_name directory.now.objects name.now)) }
    ensures known { OnOk result (AreSizes directory.now.objects (get same_name sizes.new)) }
{
    if let Some(size) = known_size(sizes, name) {
        return Ok(size);
    }
    let size = size_of_object(directory, sizes, name, levels)?;
    keep_size(sizes, directory, name, size)?;
    Ok(size)
}

/// The size of a list of names: it, or the greatest number where it is more.
pub(crate) fn size_of(alloc: Global, directory: &Directory, names: &[Name]) -> Result<u32, Memory>
    ensures { IfOk result (λ size. size ≡ told_size (names_size directory.now.objects names.now)) }
{
    let _count = directory.len();
    let mut sizes = HashMap::new(alloc);
    let mut total = 0u32;
    for name in names {
        total = total.saturating_add(size_of_name(directory, &mut sizes, name, LEVELS)?);
    }
    Ok(total)
}

/// The limit is this number, in definitions and in code. This law is what refuses another one.
pub fn limit_laws()
    ensures size { most_size ≡ 65536 }
    ensures size_in_code { MOST_SIZE ≡ 65536 }
{}
