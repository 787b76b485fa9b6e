//! Depths of the first objects of a list, found by one walk down, which visits each combination at most once. To it a name
//! whose object comes later is a name without one.
ghost use Rattle.std.specs.Prelude.{◌≡◌, ◌<◌, ◌≤◌, true, false, length, take, slice_get, slice_index, IsSome};
ghost use Rattle.name_core.specs.declared.name.Name.{Name};
ghost use Rattle.object_set.specs.Objects.{Parts};
ghost use Rattle.directory.specs.Walks.{unbounded, depth_within, deepest};
ghost use Rattle.object_pages.specs.Members.{name_of_node, node_names};
ghost use Rattle.directory.specs.Places.{names_within, object_within, known_depths, Finds, AreFound, KeepsFound};

use crate::gathered::Gathered;
use crate::levels::{UNBOUNDED, larger};
use comb_tree::CombNode;
use name_core::Name;
use object_set::{Body, Object};

/// The depth of the object at the place, found where it is not known and kept, or `None` where it is over `levels`.
#[cycle(walk)]
fn find_place(
    objects: &Gathered,
    depths: &mut [u8],
    count: usize,
    place: usize,
    levels: u8,
) -> Option<u8>
    requires len { length depths.old ≡ count }
    requires count { count ≤ length objects.now }
    requires within { place < count }
    requires levels { levels < unbounded }
    requires found { AreFound (take count objects.now) depths.old }
    ensures depth { (k : Name) (o : Parts) → slice_get (take count objects.now) place ≡ Some (k, o) → Finds (λ most. depth_within most (take count objects.now) k) levels result }
    ensures here { IsSome result → slice_index depths.new place < unbounded }
    ensures found { AreFound (take count objects.now) depths.new }
    ensures kept { KeepsFound depths.old depths.new }
{
    let _count = objects.len();
    let depth = depths[place];
    if depth < UNBOUNDED {
        return if depth <= levels { Some(depth) } else { None };
    }
    match objects.at(place) {
        Some((_name, object)) => {
            let depth = find_object(objects, depths, count, object, levels)?;
            depths[place] = depth;
            Some(depth)
        }
        None => unreachable!(),
    }
}

/// The depth of an object, or `None` where it is over `levels`.
#[cycle(walk)]
fn find_object(
    objects: &Gathered,
    depths: &mut [u8],
    count: usize,
    object: &Object,
    levels: u8,
) -> Option<u8>
    requires len { length depths.old ≡ count }
    requires count { count ≤ length objects.now }
    requires levels { levels < unbounded }
    requires found { AreFound (take count objects.now) depths.old }
    ensures depth { Finds (λ most. object_within most (take count objects.now) object.now) levels result }
    ensures found { AreFound (take count objects.now) depths.new }
    ensures kept { KeepsFound depths.old depths.new }
{
    match object.body() {
        Body::Solid(_) => Some(0),
        Body::Comb { tree, .. } => {
            if levels == 0 {
                return None;
            }
            let below = find_nodes(objects, depths, count, tree.nodes(), levels - 1)?;
            Some(below + 1)
        }
    }
}

/// The greatest depth of the names of the leaves, or `None` where it is over `levels`.
#[cycle(walk)]
fn find_nodes(
    objects: &Gathered,
    depths: &mut [u8],
    count: usize,
    nodes: &[CombNode],
    levels: u8,
) -> Option<u8>
    requires len { length depths.old ≡ count }
    requires count { count ≤ length objects.now }
    requires levels { levels < unbounded }
    requires found { AreFound (take count objects.now) depths.old }
    ensures depth { Finds (λ most. names_within most (take count objects.now) (node_names nodes.now)) levels result }
    ensures found { AreFound (take count objects.now) depths.new }
    ensures kept { KeepsFound depths.old depths.new }
{
    let mut most = 0;
    for node in nodes {
        most = larger(most, find_node(objects, depths, count, node, levels)?);
    }
    Some(most)
}

/// The depth of the name of a leaf, 0 of another node, or `None` where it is over `levels`.
#[cycle(walk)]
fn find_node(
    objects: &Gathered,
    depths: &mut [u8],
    count: usize,
    node: &CombNode,
    levels: u8,
) -> Option<u8>
    requires len { length depths.old ≡ count }
    requires count { count ≤ length objects.now }
    requires levels { levels < unbounded }
    requires found { AreFound (take count objects.now) depths.old }
    ensures depth { Finds (λ most. names_within most (take count objects.now) (name_of_node node.now)) levels result }
    ensures found { AreFound (take count objects.now) depths.new }
    ensures kept { KeepsFound depths.old depths.new }
{
    match node {
        CombNode::Leaf { name, .. } => find_name(objects, depths, count, name, levels),
        _ => Some(0),
    }
}

/// The depth of a name, or `None` where it is over `levels`.
#[cycle(walk)]
fn find_name(
    objects: &Gathered,
    depths: &mut [u8],
    count: usize,
    name: &Name,
    levels: u8,
) -> Option<u8>
    requires len { length depths.old ≡ count }
    requires count { count ≤ length objects.now }
    requires levels { levels < unbounded }
    requires found { AreFound (take count objects.now) depths.old }
    ensures depth { Finds (λ most. depth_within most (take count objects.now) name.now) levels result }
    ensures found { AreFound (take count objects.now) depths.new }
    ensures kept { KeepsFound depths.old depths.new }
{
    match objects.place_of(name) {
        Some(place) => {
            if place < count {
                find_place(objects, depths, count, place, levels)
            } else {
                Some(0)
            }
        }
        None => Some(0),
    }
}

/// Forgets each depth.
fn forget(depths: &mut [u8])
    ensures { (j : _) → j < length depths.old → slice_index depths.new j ≡ unbounded }
{
    depths.fill(UNBOUNDED);
}

/// Finds the depths of the first objects, and says whether none of them is over 33. The first walk that is too deep ends
/// the search.
pub(crate) fn find_first(objects: &Gathered, depths: &mut [u8], count: usize) -> bool
    requires len { length depths.old ≡ count }
    requires count { count ≤ length objects.now }
    ensures known { result ≡ true → depths.new ≡ known_depths (take count objects.now) }
    ensures shallow { result ≡ true → deepest (take count objects.now) < unbounded }
    ensures cycle { result ≡ false → unbounded ≤ deepest (take count objects.now) }
{
    forget(depths);
    for place in 0..count {
        if find_place(objects, depths, count, place, UNBOUNDED - 1).is_none() {
            return false;
        }
    }
    true
}
