//! The calls that take memory, with ample memory.

ghost use Rattle.std.specs.Prelude.{◌≤◌, IsTrue, All};

use crate::{areas, copy_present, present_tile};
use lattice_core::{Dir, V3, View};
use shot_core::Scene;
use std::test::Fail;

/// 32 columns and 16 rows, 10 tenths of a millimetre apart: two tiles side by side.
const TWO_TILES: View = View {
    corner: V3 {
        x: 0,
        y: 150,
        z: 1000,
    },
    dir: Dir::MinusZ,
    cell: 10,
    w: 32,
    h: 16,
};

/// Whether no place is over a number.
fn are_at_most(places: &[u32], most: u32) -> bool
    ensures { IsTrue result → All (λ place. place ≤ most) places.now }
{
    places.iter().all(|place| *place <= most)
}

#[test]
fn areas_go_by_places(rt: HostRuntime) -> Result<(), Fail> {
    let counts = areas(rt.alloc(), &[1, 0, 2, 0, 2, 2], 3)?;
    assert_eq!(rt; counts.as_slice(), [1, 3, 0].as_slice());
    Ok(())
}

#[test]
fn a_scene_without_regions_presents_none(rt: HostRuntime) -> Result<(), Fail> {
    let scene = Scene::new(rt.alloc(), Vec::new(rt.alloc()))?;
    TWO_TILES.check()?;
    let part = present_tile(rt.alloc(), &scene, &TWO_TILES, 1)?;
    let mut all = vec![in rt.alloc(); 1; 512]?;
    copy_present(&TWO_TILES, 1, &part, &mut all);
    assert_eq!(rt; part.len(), 256);
    let places = all.as_slice();
    if !are_at_most(places, 1) {
        panic!(rt; "a place over 1");
    }
    let counts = areas(rt.alloc(), places, 1)?;
    assert_eq!(rt; counts.as_slice(), [256].as_slice());
    Ok(())
}
