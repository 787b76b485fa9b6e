use crate::limit::{FEW_INSTANCES, MOST_LEAVES};
use crate::region::SceneRegion;
use box_index::BoxIndex;
use lattice_core::{Box3, View};
use memory_core::Memory;
use solid_set::Placed;
use std::alloc::Global;
use std::marker::Model;

/// The regions of a list of names, in the order of their places, with the number of each region's first instance and an index of
/// their boxes. Where their instances are more than `FEW_INSTANCES` and it is not the scene of a tile, it has an index of the boxes of
/// these too. Contracts see it as the list of regions.
#[derive(Debug, Drop)]
pub struct Scene {
    regions: Vec<SceneRegion>,
    firsts: Vec<u32>,
    by_region: BoxIndex,
    by_instance: Option<BoxIndex>,
}

impl Model for Scene {
    ghost use Rattle.std.specs.Prelude.{List};
    ghost use Rattle.std.specs.Coded.{coded_list};
    ghost use Rattle.shot_core.specs.Regions.{Region};
    ghost use Rattle.shot_core.specs.Prepared.{region_code, IsNumbered};

    ghost Value = { List Region };

    ghost coded = { coded_list region_code };

    ghost view = { λ s. s.regions.items };

    ghost invariant = { λ s. IsNumbered s.regions.items s.firsts.items s.by_region s.by_instance };
}

ghost use Rattle.std.specs.Prelude.{◌≡◌, ◌≤◌, ◌<◌, ◌++◌, ◌^◌, true, false, nat_le, length, map, vec_len, IfOk, OnOk, IfSome};
ghost use Rattle.shot_core.specs.declared.limit.TheConstants.{MOST_LEAVES};
ghost use Rattle.std.specs.List.Sorted.{IsPartitionPoint};
ghost use Rattle.shot_core.specs.Regions.{firsts_from, instances_of, HaveInstances, HavePlacedSolids};
ghost use Rattle.shot_core.specs.Steps.{NeverFalls};
ghost use Rattle.shot_core.specs.Prepared.{instance_of, boxes_of, region_boxes};

/// The number of each region's first instance.
fn firsts_of(alloc: Global, regions: &[SceneRegion]) -> Result<Vec<u32>, Memory>
    requires { length (instances_of regions.now) ≤ MOST_LEAVES }
    ensures firsts { IfOk result (λ v. v.items ≡ firsts_from 0 regions.now) }
    ensures leaves { IfOk result (λ _. HaveInstances regions.now) }
    ensures placed { IfOk result (λ _. HavePlacedSolids regions.now) }
{
    let mut firsts = Vec::with_capacity(alloc, regions.len())?;
    let mut first = 0;
    for region in regions {
        firsts.push(first)?;
        first += region.body().solids().len() as u32;
    }
    Ok(firsts)
}

/// The boxes of the regions, in their order.
fn boxes_of(alloc: Global, regions: &[SceneRegion]) -> Result<Vec<Box3>, Memory>
    ensures { IfOk result (λ v. v.items ≡ region_boxes regions.now) }
{
    let mut boxes = Vec::with_capacity(alloc, regions.len())?;
    for region in regions {
        boxes.push(region.body().bounds())?;
    }
    Ok(boxes)
}

/// Adds the boxes of solids.
fn add_boxes(boxes: &mut Vec<Box3>, solids: &[Placed]) -> Result<(), Memory>
    ensures { OnOk result (boxes.new.items ≡ boxes.old.items ++ boxes_of (map instance_of solids.now)) }
{
    for solid in solids {
        boxes.push(solid.bounds())?;
    }
    Ok(())
}

/// The boxes of the instances of regions, in their order.
fn instance_boxes(alloc: Global, regions: &[SceneRegion]) -> Result<Vec<Box3>, Memory>
    ensures { IfOk result (λ v. v.items ≡ boxes_of (instances_of regions.now)) }
{
    let mut boxes = Vec::new(alloc);
    for region in regions {
        add_boxes(&mut boxes, region.body().solids())?;
    }
    Ok(boxes)
}

/// An index of the boxes where they are more than `FEW_INSTANCES`.
fn index_of_many(alloc: Global, boxes: Vec<Box3>) -> Result<Option<BoxIndex>, Memory>
    requires { vec_len boxes < 2 ^ 31 }
    ensures { IfOk result (λ found. IfSome found (λ index. index ≡ boxes.items)) }
{
    if boxes.len() <= FEW_INSTANCES {
        return Ok(None);
    }
    let index = BoxIndex::build(alloc, boxes)?;
    Ok(Some(index))
}

/// How many of the numbers, which never fall, are at most a number.
fn count_up_to(firsts: &[u32], number: u32) -> usize
    requires { NeverFalls firsts.now }
    ensures within { result ≤ length firsts.now }
    ensures parted { IsPartitionPoint (λ f. nat_le f number ≡ true) (λ f. nat_le f number ≡ false) firsts.now result }
{
    firsts.partition_point(|first| *first <= number)
}

impl Scene {
    ghost use Rattle.std.specs.Prelude.{◌≡◌, ◌<◌, ◌≤◌, ◌^◌, IfOk, IfSome, length, slice_get, slice_index_or};
    ghost use Rattle.std.specs.Option.{option_map, option_copied};
    ghost use Rattle.shot_core.specs.Regions.{IsScene, HaveInstances, HavePlacedSolids, instances_of, firsts_from};
    ghost use Rattle.lattice_core.specs.Views.{IsChecked};
    ghost use Rattle.lattice_core.specs.Tiles.{tiles_of, MeetsTile};
    ghost use Rattle.box_index.specs.Places.{ArePlacesOf};
    ghost use Rattle.shot_core.specs.Prepared.{instance_of, boxes_of, region_boxes};
    ghost use Rattle.shot_core.specs.Steps.{owned_from};

    /// The scene of regions whose places rise from at least 1, and whose bodies together have a size of at most
    /// `MOST_LEAVES` and at most as many solids.
    pub fn new(alloc: Global, regions: Vec<SceneRegion>) -> Result<Scene, Memory>
        requires { IsScene regions.items }
        ensures { IfOk result (λ s. s ≡ regions.items) }
    {
        let boxes = instance_boxes(alloc, &regions)?;
        let by_instance = index_of_many(alloc, boxes)?;
        Scene::indexed_by(alloc, regions, by_instance)
    }

    /// The same without an index of the instances, for a scene at which no ray is shot that would look there.
    pub fn unindexed(alloc: Global, regions: Vec<SceneRegion>) -> Result<Scene, Memory>
        requires { IsScene regions.items }
        ensures { IfOk result (λ s. s ≡ regions.items) }
    {
        Scene::indexed_by(alloc, regions, None)
    }

    /// The scene of such regions with this index of their instances, or with none.
    fn indexed_by(
        alloc: Global,
        regions: Vec<SceneRegion>,
        by_instance: Option<BoxIndex>,
    ) -> Result<Scene, Memory>
        requires regions { IsScene regions.items }
        requires boxes { IfSome by_instance (λ index. index ≡ boxes_of (instances_of regions.items)) }
        ensures { IfOk result (λ s. s ≡ regions.items) }
    {
        let firsts = firsts_of(alloc, &regions)?;
        let boxes = boxes_of(alloc, &regions)?;
        let by_region = BoxIndex::build(alloc, boxes)?;
        Ok(Scene {
            regions,
            firsts,
            by_region,
            by_instance,
        })
    }

    /// The regions, in the order of their places.
    pub fn regions(&self) -> &[SceneRegion]
        ensures value { result.now ≡ self.now }
        ensures sound { IsScene self.now }
        ensures leaves { HaveInstances self.now }
        ensures placed { HavePlacedSolids self.now }
    {
        &self.regions
    }

    /// Replaces `out` by the places in the list of the regions whose boxes meet the box of a tile's rays, in rising order. After
    /// want of memory it may hold anything.
    pub(crate) fn reach_tile(
        &self,
        view: &View,
        tile: u32,
        out: &mut Vec<u32>,
    ) -> Result<(), Memory>
        requires view { IsChecked view.now }
        requires tile { tile < tiles_of view.now }
        ensures { IfOk result (λ _. ArePlacesOf (λ b. MeetsTile b view.now tile) (region_boxes self.now) out.new.items) }
    {
        self.by_region.meets_tile(view, tile, out)
    }

    /// The index of the instances' boxes. There is none where they are few, nor in the scene of a tile.
    pub fn by_instance(&self) -> Option<&BoxIndex>
        ensures boxes { IfSome result (λ index. index.now ≡ boxes_of (instances_of self.now)) }
        ensures sound { IsScene self.now }
        ensures leaves { HaveInstances self.now }
        ensures placed { HavePlacedSolids self.now }
    {
        match &self.by_instance {
            Some(index) => Some(index),
            None => None,
        }
    }

    /// The number of a region's first instance. Instances are numbered from 0 over all regions.
    pub fn first(&self, region: u32) -> u32
        requires { region < length self.now }
        ensures { result ≡ slice_index_or (firsts_from 0 self.now) region 0 }
    {
        self.firsts[region as usize]
    }

    /// The number of the region of the instance of that number, counted from 0.
    pub fn owner(&self, number: u32) -> u32
        requires { number < length (instances_of self.now) }
        ensures { IfSome (slice_get (owned_from 0 self.now) number) (λ one. one.0 ≡ result) }
    {
        let count = count_up_to(&self.firsts, number);
        (count - 1) as u32
    }

    /// The solid of that number, or `None` where there are fewer.
    pub fn instance(&self, number: u32) -> Option<&Placed>
        ensures { option_map instance_of (option_copied result) ≡ slice_get (instances_of self.now) number }
    {
        let count = count_up_to(&self.firsts, number);
        if count == 0 {
            return None;
        }
        let solids = self.regions[count - 1].body().solids();
        solids.get((number - self.firsts[count - 1]) as usize)
    }
}
