//! The objects of a demo.
ghost use Rattle.std.specs.Prelude.{◌≡◌, ◌<◌, ◌≤◌, Some, IfOk, length};
ghost use Rattle.lattice_core.specs.declared.limit.TheConstants.{COORD};
ghost use Rattle.lattice_core.specs.Limits.{IsWithin};
ghost use Rattle.prim_sphere.specs.Spheres.{IsRadius};
ghost use Rattle.word_values.specs.Matrices.{identity};
ghost use Rattle.comb_tree.specs.Lists.{tree_of_list};
ghost use Rattle.region_attr.specs.Ranges.{HasRanges};
ghost use Rattle.scene_make.specs.Demo as demo;

use crate::names::{cut_name, sphere_name};
use comb_tree::{CombTree, ListEntry, TreeFault};
use lattice_core::{MILLIMETRE, Placement, Turn, V3};
use memory_core::Memory;
use object_set::Object;
use prim_arb8::Arb8;
use prim_sphere::Sphere;
use region_attr::{Attr, Rgb};
use solid_set::Solid;
use std::alloc::Global;
use tree_forms::Op;

/// How long the sides of the box are that is cut off, in tenths of a millimetre.
const CUT: i64 = 80 * MILLIMETRE;

/// What is cut off.
pub(crate) fn cut(alloc: Global) -> Object
    ensures { result ≡ demo.cut }
{
    match Arb8::of_extents(0, CUT, 0, CUT, 0, CUT) {
        Ok(arb8) => Object::of_solid(alloc, Solid::Arb8(arb8)),
        Err(_) => unreachable!(),
    }
}

fn coordinate(digit: u32) -> i64
    requires { digit < 10 }
    ensures { result ≡ demo.coordinate digit }
{
    (200 * i64::from(digit) - 900) * MILLIMETRE
}

/// The place of the three decimal digits of a number.
fn centre_of(i: u32) -> V3
    requires { i < 1000 }
    ensures value { result ≡ demo.centre_of i }
    ensures near { IsWithin COORD result }
{
    V3 {
        x: coordinate(i / 100),
        y: coordinate(i / 10 % 10),
        z: coordinate(i % 10),
    }
}

/// The sphere of a number.
pub(crate) fn sphere(alloc: Global, i: u32, radius: i64) -> Object
    requires number { i < 1000 }
    requires radius { IsRadius radius }
    ensures { result ≡ demo.sphere_of i radius }
{
    match Sphere::new(centre_of(i), radius) {
        Ok(sphere) => Object::of_solid(alloc, Solid::Sphere(sphere)),
        Err(_) => unreachable!(),
    }
}

/// The placement that moves nothing.
pub(crate) fn identity() -> Placement
    ensures { result ≡ identity }
{
    Placement::identity()
}

/// The tree of a list of at most 4,096 members.
pub(crate) fn tree_of(alloc: Global, list: &[ListEntry]) -> Result<CombTree, Memory>
    requires { length list.now ≤ 4096 }
    ensures { IfOk result (λ t. t ≡ tree_of_list list.now) }
{
    match CombTree::of_list(alloc, list) {
        Ok(tree) => Ok(tree),
        Err(TreeFault::Memory) => Err(Memory),
        Err(_) => unreachable!(),
    }
}

/// The tree of a region: the sphere without what is cut off.
fn region_tree(alloc: Global, i: u32, turn: Turn) -> Result<CombTree, Memory>
    requires { i < 1000 }
    ensures tree { IfOk result (λ t. t ≡ Some (demo.region_tree i turn)) }
{
    let sphere = ListEntry {
        op: Op::U,
        name: sphere_name(i),
        placement: identity(),
    };
    let cut = ListEntry {
        op: Op::Minus,
        name: cut_name(),
        placement: Placement {
            turn,
            shift: centre_of(i),
        },
    };
    tree_of(alloc, &[sphere, cut])
}

fn attr_of(id: u32, colour: Rgb) -> Attr
    requires { id ≤ 999999 }
    ensures value { result ≡ demo.attr_of id colour }
    ensures ranges { HasRanges result }
{
    Attr {
        id,
        rgb: Some(colour),
        ..Attr::of_region()
    }
}

/// The region of a number.
pub(crate) fn region(alloc: Global, i: u32, turn: Turn, colour: Rgb) -> Result<Object, Memory>
    requires { i < 1000 }
    ensures { IfOk result (λ o. o ≡ demo.region_of i turn colour) }
{
    let tree = region_tree(alloc, i, turn)?;
    Ok(Object::of_comb(alloc, attr_of(1000 + i, colour), tree))
}
