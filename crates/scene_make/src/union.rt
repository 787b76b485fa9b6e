//! The combination of all regions of a demo.
ghost use Rattle.std.specs.Prelude.{◌≡◌, ◌≤◌, Some, IfOk, OnOk};
ghost use Rattle.scene_make.specs.Demo as demo;
ghost use Rattle.scene_make.specs.Steps.{entries_to};

use crate::names::region_name;
use crate::objects::{identity, tree_of};
use comb_tree::{CombTree, ListEntry};
use memory_core::Memory;
use object_set::Object;
use region_attr::Attr;
use std::alloc::Global;
use tree_forms::Op;

/// The list `u r0 u r1 ..` of so many regions.
fn regions(alloc: Global, count: u32) -> Result<Vec<ListEntry>, Memory>
    ensures { IfOk result (λ list. list.items ≡ entries_to count) }
{
    let mut list = Vec::new(alloc);
    for i in 0..count {
        list.push(ListEntry {
            op: Op::U,
            name: region_name(i),
            placement: identity(),
        })?;
    }
    Ok(list)
}

/// The union of the regions.
fn union_tree(alloc: Global) -> Result<CombTree, Memory>
    ensures { IfOk result (λ t. t ≡ Some (demo.union_to 999)) }
{
    let list = regions(alloc, 1000)?;
    tree_of(alloc, &list)
}

pub(crate) fn all(alloc: Global) -> Result<Object, Memory>
    ensures { IfOk result (λ o. o ≡ demo.all) }
{
    let tree = union_tree(alloc)?;
    Ok(Object::of_comb(alloc, Attr::of_group(), tree))
}
