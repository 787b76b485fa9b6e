//! Boxes in a list, and the tree of their bounding boxes.

ghost use Rattle.std.specs.Prelude.{◌≡◌, ◌<◌, ◌^◌, ◌&&◌, IsTrue, IfOk};
ghost use Rattle.std.specs.Vec.{vec_len};
ghost use Rattle.lattice_core.specs.declared.limit.TheConstants.{WORLD};
ghost use Rattle.lattice_core.specs.Limits.{IsWithin};
ghost use Rattle.lattice_core.specs.Boxes.{MeetsRay};
ghost use Rattle.lattice_core.specs.Views.{IsChecked};
ghost use Rattle.lattice_core.specs.Tiles.{tiles_of, MeetsTile};
ghost use Rattle.slant_ray.specs.Rays.{IsSlantRay, direction_of};
ghost use Rattle.box_index.specs.Lines.{MeetsSlant};
ghost use Rattle.box_index.specs.Reaches.{has_points, do_touch};
ghost use Rattle.box_index.specs.Places.{ArePlacesOf};

use crate::grow::{filled_places, tree_of};
use crate::line::Line;
use crate::node::{Node, add_reached};
use crate::slant::find_crossed;
use lattice_core::{Box3, Ray, View, ray_box, tile_box};
use memory_core::Memory;
use slant_ray::SlantRay;
use std::alloc::Global;
use std::marker::Model;

/// Boxes in a list, and bounding boxes that tell which of them lie where. Contracts see it as the list of its boxes.
#[derive(Debug, Drop)]
pub struct BoxIndex {
    boxes: Vec<Box3>,
    nodes: Vec<Node>,
}

impl Model for BoxIndex {
    ghost use Rattle.std.specs.Prelude.{List};
    ghost use Rattle.lattice_core.specs.declared.boxes.Box3.{Box3};
    ghost use Rattle.box_index.specs.Nodes.{IsIndexOf};

    ghost Value = { List Box3 };

    ghost view = { λ a. a.boxes.items };

    ghost invariant = { λ a. IsIndexOf a.boxes.items a.nodes.items };
}

impl BoxIndex {
    /// The index of a list of boxes.
    pub fn build(alloc: Global, boxes: Vec<Box3>) -> Result<BoxIndex, Memory>
        requires { vec_len boxes < 2 ^ 31 }
        ensures { IfOk result (λ index. index ≡ boxes.items) }
    {
        let places = filled_places(alloc, &boxes)?;
        let nodes = tree_of(alloc, &boxes, places)?;
        Ok(BoxIndex { boxes, nodes })
    }

    /// The boxes.
    pub fn boxes(&self) -> &[Box3]
        ensures { result.now ≡ self.now }
    {
        &self.boxes
    }

    /// Replaces `out` by the places of the boxes that share a point with a window that has some.
    fn touches(&self, window: &Box3, out: &mut Vec<u32>) -> Result<(), Memory>
        ensures { IfOk result (λ _. ArePlacesOf (λ b. IsTrue (has_points b && do_touch b window.now)) self.now out.new.items) }
    {
        out.clear();
        add_reached(&self.nodes, &self.boxes, window, out)?;
        out.sort_unstable();
        Ok(())
    }

    /// Replaces `out` by the places in the list of the boxes that meet a ray, in rising order. After want of memory it may hold
    /// anything.
    pub fn meets_ray(&self, ray: &Ray, out: &mut Vec<u32>) -> Result<(), Memory>
        requires { IsWithin WORLD ray.now.origin }
        ensures { IfOk result (λ _. ArePlacesOf (λ b. MeetsRay b ray.now) self.now out.new.items) }
    {
        self.touches(&ray_box(ray), out)
    }

    /// Replaces `out` by the places in the list of the boxes that meet a ray in a lattice direction, in rising order. After want of
    /// memory it may hold anything.
    pub fn meets_slant(&self, ray: &SlantRay, out: &mut Vec<u32>) -> Result<(), Memory>
        requires { IsSlantRay ray.now }
        ensures { IfOk result (λ _. ArePlacesOf (λ b. MeetsSlant b ray.now.origin (direction_of ray.now)) self.now out.new.items) }
    {
        find_crossed(&self.nodes, &self.boxes, &Line::of(ray), out)
    }

    /// Replaces `out` by the places in the list of the boxes that meet the box of a tile's rays, in rising order. After want of
    /// memory it may hold anything.
    pub fn meets_tile(&self, view: &View, tile: u32, out: &mut Vec<u32>) -> Result<(), Memory>
        requires view { IsChecked view.now }
        requires tile { tile < tiles_of view.now }
        ensures { IfOk result (λ _. ArePlacesOf (λ b. MeetsTile b view.now tile) self.now out.new.items) }
    {
        self.touches(&tile_box(view, tile), out)
    }
}
