//! What the pixels of tiles present, with what names it, and the tiles of a view as a job of it.
ghost use Rattle.std.specs.Prelude.{◌≡◌, ◌<◌, ◌↔◌, IfOk, IsTrue};
ghost use Rattle.std.specs.Arc.{arc_value};
ghost use Rattle.lattice_core.specs.Views.{IsChecked};
ghost use Rattle.lattice_core.specs.Tiles.{tiles_of};
ghost use Rattle.tile_shot.specs.Named.{name_of};
ghost use Rattle.view_shot.specs.Named.{IsNamedPresents, places_of};

use crate::named::{are_same, places_of};
use area_tool::{present_laws, present_tile};
use item_list::Items;
use lattice_core::View;
use memory_core::Memory;
use shot_core::{Scene, kept_regions};
use std::alloc::Global;
use std::sync::Arc;
use tile_shot::TileKey;
use tile_workers::Job;

/// What each pixel of a tile presents, row by row, with what names it: the name of the tile, and the places of its regions. It
/// is what regions of these bodies at these places present.
#[derive(Drop)]
pub struct NamedPresents {
    key: TileKey,
    places: Items<u32>,
    presents: Items<u32>,
    ghost right: { IsNamedPresents key places presents },
}

/// What a tile presents, with its name, held by several.
#[derive(Drop)]
pub struct SharedPresents {
    named: Arc<NamedPresents>,
}

impl SharedPresents {
    /// What the pixels of a tile of regions present.
    pub(crate) fn new(
        alloc: Global,
        regions: &Scene,
        view: &View,
        tile: u32,
    ) -> Result<SharedPresents, Memory>
        requires view { IsChecked view.now }
        requires tile { tile < tiles_of view.now }
        ensures key { IfOk result (λ shared. (arc_value shared.named).key ≡ name_of regions.now view.now tile) }
        ensures places { IfOk result (λ shared. (arc_value shared.named).places ≡ places_of regions.now) }
        ensures right { IfOk result (λ shared. IsNamedPresents (arc_value shared.named).key (arc_value shared.named).places (arc_value shared.named).presents) }
    {
        let key = TileKey::new(alloc, regions, view, tile)?;
        let places = places_of(alloc, regions)?;
        let presents = Items::of_vec(present_tile(alloc, regions, view, tile)?);
        let named = Arc::new(
            alloc,
            NamedPresents {
                key,
                places,
                presents,
            },
        )?;
        Ok(SharedPresents { named })
    }

    /// Another share of it.
    pub(crate) fn share(&self) -> Result<SharedPresents, Memory>
        ensures { IfOk result (λ shared. arc_value shared.named ≡ arc_value self.now.named) }
    {
        let named = self.named.clone()?;
        Ok(SharedPresents { named })
    }

    /// What the pixels present, row by row.
    pub(crate) fn presents(&self) -> &[u32]
        ensures value { result.now ≡ (arc_value self.now.named).presents }
        ensures right { IsNamedPresents (arc_value self.now.named).key (arc_value self.now.named).places (arc_value self.now.named).presents }
    {
        self.named.presents.items()
    }

    /// Whether it has this name and these places.
    pub(crate) fn is_of(&self, key: &TileKey, places: &Items<u32>) -> bool
        ensures { IsTrue result ↔ (((arc_value self.now.named).key ≡ key.now) × ((arc_value self.now.named).places ≡ places.now)) }
    {
        let named = &*self.named;
        named.key == *key && are_same(named.places.items(), places.items())
    }
}

/// All tiles of a view of a scene, in their order.
#[derive(Drop)]
pub struct PresentJob {
    pub(crate) scene: Arc<Scene>,
    pub(crate) view: View,
    pub(crate) ghost checked: { IsChecked view },
}

impl PresentJob {
    ghost use Rattle.view_shot.specs.Jobs.{IsPresentedBy, NamesPresents};
    ghost use Rattle.view_shot.specs.declared.present_job.NamedPresents.{NamedPresents as Held};

    /// What is named as that of a piece is what its tile presents. Nothing is done: the contract is the law.
    fn piece_law(&self, i: u32)
        requires { i < tiles_of self.now.view }
        ensures { (named : Held) → IsNamedPresents named.key named.places named.presents → NamesPresents self.now i named → IsPresentedBy self.now i named.presents }
    {
        present_laws();
        let _regions = self.scene.regions();
    }
}

impl Job for PresentJob {
    ghost use Rattle.view_shot.specs.Jobs.{IsPresentedBy, NamesPresents};

    type Out = SharedPresents;

    ghost pieces = { λ job. tiles_of job.view };

    ghost tiles = { λ job i. i };

    ghost gives = { λ job i shared. IsPresentedBy job i (arc_value shared.named).presents };

    ghost names = { λ job i shared. NamesPresents job i (arc_value shared.named) };

    fn count(&self) -> u32 {
        self.view.tiles()
    }

    fn tile(&self, i: u32) -> u32 {
        i
    }

    fn run(&self, alloc: Global, i: u32) -> Result<SharedPresents, Memory> {
        self.piece_law(i);
        let kept = kept_regions(alloc, &self.scene, &self.view, i)?;
        let shared = SharedPresents::new(alloc, &kept, &self.view, i)?;
        Ok(shared)
    }

    /// Another share of what a tile presents, where it is named as that of a piece.
    fn again(
        &self,
        alloc: Global,
        i: u32,
        out: &SharedPresents,
    ) -> Result<Option<SharedPresents>, Memory> {
        self.piece_law(i);
        let _right = out.presents();
        let kept = kept_regions(alloc, &self.scene, &self.view, i)?;
        let key = TileKey::new(alloc, &kept, &self.view, i)?;
        let places = places_of(alloc, &kept)?;
        if out.is_of(&key, &places) {
            Ok(Some(out.share()?))
        } else {
            Ok(None)
        }
    }
}
