//! What rays in lattice directions meet of spheres, with ample memory.

ghost use Rattle.std.specs.Prelude.{◌≡◌, IfOk, length};
ghost use Rattle.shot_core.specs.Regions.{size_of};

use crate::{Slab, SlantRay, slant_shot};
use bool_weave::{MaskNode, MaskTree};
use lattice_core::{Placement, V3};
use memory_core::Memory;
use prim_sphere::Sphere;
use region_attr::Rgb;
use shot_core::{PathText, PrepRegion, Scene, SceneRegion};
use solid_set::Solid;
use std::alloc::Global;
use std::sync::Arc;
use std::test::Fail;
use surd_quot::QPos;

/// The middle of all.
const ZERO: V3 = V3 { x: 0, y: 0, z: 0 };

/// The region of one solid, with a place in its scene.
fn region_of(alloc: Global, place: u32, solid: &Solid) -> Result<SceneRegion, Memory>
    ensures place { IfOk result (λ r. r.place ≡ place) }
    ensures size { IfOk result (λ r. size_of r.body ≡ 1) }
    ensures instances { IfOk result (λ r. length r.body.instances ≡ 1) }
{
    let mut solids = Vec::new(alloc);
    solids.push(solid.placed(&Placement::identity()))?;
    let mut nodes = Vec::new(alloc);
    nodes.push(MaskNode::Leaf(0))?;
    let tree = MaskTree::of_nodes(nodes);
    let rgb = Rgb { r: 1, g: 2, b: 3 };
    let body = PrepRegion::new(alloc, 1000, 0, rgb, tree, solids)?;
    let path = Arc::new(alloc, PathText::new(alloc))?;
    Ok(SceneRegion::new(place, path, Arc::new(alloc, body)?))
}

/// The scene of one solid.
fn scene_of_one(alloc: Global, solid: &Solid) -> Result<Scene, Memory> {
    let mut regions = Vec::new(alloc);
    regions.push(region_of(alloc, 1, solid)?)?;
    Scene::new(alloc, regions)
}

/// The scene of two solids, the first of which has the lower place.
fn scene_of_two(alloc: Global, first: &Solid, second: &Solid) -> Result<Scene, Memory> {
    let mut regions = Vec::new(alloc);
    regions.push(region_of(alloc, 1, first)?)?;
    regions.push(region_of(alloc, 2, second)?)?;
    Scene::new(alloc, regions)
}

/// So many copies of a solid: with one more solid a scene has an index of its instances.
const COPIES: usize = 8;

/// The region of many copies of a solid, with a place in its scene.
fn region_of_copies(alloc: Global, place: u32, solid: &Solid) -> Result<SceneRegion, Memory>
    ensures place { IfOk result (λ r. r.place ≡ place) }
    ensures size { IfOk result (λ r. size_of r.body ≡ 1) }
    ensures instances { IfOk result (λ r. length r.body.instances ≡ COPIES) }
{
    let mut solids = Vec::new(alloc);
    for _ in 0..COPIES {
        solids.push(solid.placed(&Placement::identity()))?;
    }
    let mut nodes = Vec::new(alloc);
    nodes.push(MaskNode::Leaf(0))?;
    let tree = MaskTree::of_nodes(nodes);
    let rgb = Rgb { r: 1, g: 2, b: 3 };
    let body = PrepRegion::new(alloc, 1000, 0, rgb, tree, solids)?;
    let path = Arc::new(alloc, PathText::new(alloc))?;
    Ok(SceneRegion::new(place, path, Arc::new(alloc, body)?))
}

/// The scene of many copies of a solid and of two others behind them.
fn scene_behind_copies(
    alloc: Global,
    copied: &Solid,
    first: &Solid,
    second: &Solid,
) -> Result<Scene, Memory> {
    let mut regions = Vec::new(alloc);
    regions.push(region_of_copies(alloc, 1, copied)?)?;
    regions.push(region_of(alloc, 2, first)?)?;
    regions.push(region_of(alloc, 3, second)?)?;
    Scene::new(alloc, regions)
}

fn whole(p: i128) -> QPos {
    QPos::Frac { p, q: 1 }
}

#[test]
fn a_sphere_is_left_at_a_root(rt: HostRuntime) -> Result<(), Fail> {
    let sphere = Solid::Sphere(Sphere::new(ZERO, 50)?);
    let scene = scene_of_one(rt.alloc(), &sphere)?;
    let ray = SlantRay {
        origin: ZERO,
        x: 1,
        y: 1,
        z: 0,
    };
    ray.check()?;
    let slabs = slant_shot(rt.alloc(), &scene, &ray)?;
    let root = QPos::Quot {
        a: 0,
        plus: true,
        k: 1250,
        q: 1,
    };
    let all = Slab {
        region: 0,
        start: whole(0),
        end: root,
    };
    assert_eq!(rt; slabs.as_slice(), [all].as_slice());
    Ok(())
}

#[test]
fn a_root_may_be_divided(rt: HostRuntime) -> Result<(), Fail> {
    let sphere = Solid::Sphere(Sphere::new(ZERO, 50)?);
    let scene = scene_of_one(rt.alloc(), &sphere)?;
    let ray = SlantRay {
        origin: V3 { x: -30, y: 0, z: 0 },
        x: 1,
        y: 1,
        z: 1,
    };
    ray.check()?;
    let slabs = slant_shot(rt.alloc(), &scene, &ray)?;
    let root = QPos::Quot {
        a: 30,
        plus: true,
        k: 5700,
        q: 3,
    };
    let all = Slab {
        region: 0,
        start: whole(0),
        end: root,
    };
    assert_eq!(rt; slabs.as_slice(), [all].as_slice());
    Ok(())
}

#[test]
fn the_first_of_two_spheres_has_what_both_hold(rt: HostRuntime) -> Result<(), Fail> {
    let first = Solid::Sphere(Sphere::new(ZERO, 50)?);
    let second = Solid::Sphere(Sphere::new(V3 { x: 10, y: 0, z: 0 }, 50)?);
    let scene = scene_of_two(rt.alloc(), &first, &second)?;
    let ray = SlantRay {
        origin: ZERO,
        x: 1,
        y: 1,
        z: 0,
    };
    ray.check()?;
    let slabs = slant_shot(rt.alloc(), &scene, &ray)?;
    let root = QPos::Quot {
        a: 0,
        plus: true,
        k: 1250,
        q: 1,
    };
    let own = Slab {
        region: 0,
        start: whole(0),
        end: root,
    };
    let rest = Slab {
        region: 1,
        start: root,
        end: whole(40),
    };
    assert_eq!(rt; slabs.as_slice(), [own, rest].as_slice());
    Ok(())
}

#[test]
fn regions_that_the_ray_passes_by_keep_their_numbers(rt: HostRuntime) -> Result<(), Fail> {
    let aside = Solid::Sphere(Sphere::new(V3 { x: 500, y: 0, z: 0 }, 50)?);
    let first = Solid::Sphere(Sphere::new(ZERO, 50)?);
    let second = Solid::Sphere(Sphere::new(V3 { x: 10, y: 0, z: 0 }, 50)?);
    let scene = scene_behind_copies(rt.alloc(), &aside, &first, &second)?;
    let ray = SlantRay {
        origin: ZERO,
        x: 1,
        y: 1,
        z: 0,
    };
    ray.check()?;
    let slabs = slant_shot(rt.alloc(), &scene, &ray)?;
    let root = QPos::Quot {
        a: 0,
        plus: true,
        k: 1250,
        q: 1,
    };
    let own = Slab {
        region: 1,
        start: whole(0),
        end: root,
    };
    let rest = Slab {
        region: 2,
        start: root,
        end: whole(40),
    };
    assert_eq!(rt; slabs.as_slice(), [own, rest].as_slice());
    Ok(())
}

#[test]
fn a_ray_may_pass_by_all(rt: HostRuntime) -> Result<(), Fail> {
    let aside = Solid::Sphere(Sphere::new(V3 { x: 500, y: 0, z: 0 }, 50)?);
    let scene = scene_behind_copies(rt.alloc(), &aside, &aside, &aside)?;
    let ray = SlantRay {
        origin: ZERO,
        x: 1,
        y: 1,
        z: 0,
    };
    ray.check()?;
    let slabs = slant_shot(rt.alloc(), &scene, &ray)?;
    assert_eq!(rt; slabs.as_slice(), [].as_slice());
    Ok(())
}
