//! The scenes of lists of names in the directories of scripts.

ghost use Rattle.std.specs.Prelude.{IfOk};
ghost use Rattle.ray_cases.specs.UnionLess.{IsUnionLess};

use crate::bodies::{push_body, push_place, push_solids};
use crate::scripts::{directory_of, names_of};
use crate::texts::{put_number, two_fields};
use case_text::{CaseFault, Shown};
use comb_tree::{CombNode, CombTree};
use directory::Directory;
use lattice_core::Placement;
use name_core::Name;
use object_set::Object;
use region_attr::Attr;
use scene_prep::{PrepFault, prepare};
use shot_core::{PrepRegion, Scene, SceneRegion};
use std::alloc::Global;

/// Puts in why there is no scene.
pub fn put_fault(fault: &PrepFault, out: &mut Shown) -> Result<(), CaseFault> {
    match fault {
        PrepFault::Missing(name) => {
            out.put(b"missing ");
            out.put(name.bytes());
        }
        PrepFault::TooMany(size) => put_number(out, b"instances ", u64::from(*size)),
        PrepFault::Memory => return Err(CaseFault::Memory),
    }
    Ok(())
}

/// Puts in a semicolon before each region but the first, and its place and its path.
fn put_next(
    alloc: Global,
    i: usize,
    region: &SceneRegion,
    out: &mut Shown,
) -> Result<(), CaseFault> {
    if i > 0 {
        out.put(b"; ");
    }
    push_place(alloc, region, out)
}

fn put_regions(alloc: Global, scene: &Scene, out: &mut Shown) -> Result<(), CaseFault> {
    for (i, region) in scene.regions().iter().enumerate() {
        put_next(alloc, i, region, out)?;
        out.put(b" ");
        push_body(alloc, region.body(), out)?;
    }
    Ok(())
}

fn put_all_solids(alloc: Global, scene: &Scene, out: &mut Shown) -> Result<(), CaseFault> {
    for (i, region) in scene.regions().iter().enumerate() {
        put_next(alloc, i, region, out)?;
        push_solids(alloc, region.body().solids(), out)?;
    }
    Ok(())
}

/// Puts in what the first region has.
fn put_first(body: &PrepRegion, out: &mut Shown) {
    put_number(out, b"; first has solids ", body.solids().len() as u64);
    put_number(out, b" nodes ", body.tree().nodes().len() as u64);
    put_number(out, b" size ", u64::from(body.size()));
}

/// Puts in the number of regions, the first one's parts, and the place and path of the last one.
fn put_sizes(alloc: Global, scene: &Scene, out: &mut Shown) -> Result<(), CaseFault> {
    let regions = scene.regions();
    put_number(out, b"regions ", regions.len() as u64);
    let (Some(first), Some(last)) = (regions.first(), regions.last()) else {
        return Ok(());
    };
    put_first(first.body(), out);
    out.put(b"; last is ");
    push_place(alloc, last, out)
}

/// What is told of a scene.
#[derive(Clone, Copy)]
pub enum Told {
    Regions,
    Solids,
    Sizes,
}

/// Puts in what is told of the scene of names, or why they have none.
fn put_scene(
    alloc: Global,
    told: Told,
    directory: &Directory,
    names: &[Name],
    out: &mut Shown,
) -> Result<(), CaseFault> {
    let scene = match prepare(alloc, directory, names) {
        Ok(scene) => scene,
        Err(fault) => return put_fault(&fault, out),
    };
    match told {
        Told::Regions => put_regions(alloc, &scene, out),
        Told::Solids => put_all_solids(alloc, &scene, out),
        Told::Sizes => put_sizes(alloc, &scene, out),
    }
}

/// `scene SCRIPT | NAMES => PLACE PATH tree NODES id ID air AIR rgb R G B size LEAVES solids COUNT box SIDES; ..`,
/// `solids SCRIPT | NAMES => PLACE PATH box SIDES .. ; ..`, the boxes of each region's solids, and
/// `sizes SCRIPT | NAMES => regions COUNT; first has solids COUNT nodes COUNT size LEAVES; last is PLACE PATH`; or
/// `missing NAME`, or `instances COUNT`
pub fn answer_scene(
    alloc: Global,
    told: Told,
    given: &[u8],
    out: &mut Shown,
) -> Result<(), CaseFault> {
    let (script, list) = two_fields(given)?;
    let names = names_of(alloc, list)?;
    let directory = directory_of(alloc, script)?;
    put_scene(alloc, told, &directory, &names, out)
}

/// The nodes of the union of two members less a third.
fn nodes_of(alloc: Global, one: Name, two: Name, less: Name) -> Result<Vec<CombNode>, CaseFault>
    ensures { IfOk result (λ v. IsUnionLess v.items) }
{
    let placement = Placement::identity();
    let mut nodes = Vec::new(alloc);
    nodes.push(CombNode::Leaf {
        name: one,
        placement,
    })?;
    nodes.push(CombNode::Leaf {
        name: two,
        placement,
    })?;
    nodes.push(CombNode::U)?;
    nodes.push(CombNode::Leaf {
        name: less,
        placement,
    })?;
    nodes.push(CombNode::Minus)?;
    Ok(nodes)
}

/// The combination of the union of two members less a third.
fn union_less(alloc: Global, one: Name, two: Name, less: Name) -> Result<Object, CaseFault> {
    let Ok(tree) = CombTree::of_nodes(nodes_of(alloc, one, two, less)?) else {
        return Err(CaseFault::Line);
    };
    Ok(Object::of_comb(alloc, Attr::of_group(), tree))
}

/// Puts in such a combination, and answers its name, of its name and those of its members.
fn put_union(alloc: Global, directory: &mut Directory, names: &[Name]) -> Result<Name, CaseFault> {
    let [name, one, two, less] = *names else {
        return Err(CaseFault::Line);
    };
    let object = union_less(alloc, one, two, less)?;
    match directory.put(&name, object) {
        Ok(()) => Ok(name),
        Err(_) => Err(CaseFault::Line),
    }
}

/// `union_less SCRIPT | NAME ONE TWO LESS => ..` as of `scene`: the regions of NAME, a combination that is made of the
/// union of two members less a third. No list of members gives its tree.
pub fn answer_union_less(alloc: Global, given: &[u8], out: &mut Shown) -> Result<(), CaseFault> {
    let (script, list) = two_fields(given)?;
    let names = names_of(alloc, list)?;
    let mut directory = directory_of(alloc, script)?;
    let name = put_union(alloc, &mut directory, &names)?;
    put_scene(alloc, Told::Regions, &directory, &[name], out)
}
