//! The pairs of a tile, with what names them.
ghost use Rattle.std.specs.Prelude.{◌≡◌, ◌<◌, ◌↔◌, IfOk, IsTrue};
ghost use Rattle.std.specs.Arc.{arc_value};
ghost use Rattle.lattice_core.specs.Views.{IsChecked};
ghost use Rattle.lattice_core.specs.Tiles.{tiles_of};
ghost use Rattle.tile_shot.specs.Named.{name_of};
ghost use Rattle.view_shot.specs.Named.{IsNamedReport, named_prop, places_of};
ghost use Rattle.view_shot.specs.Steps.{IsTileReport};

use item_list::Items;
use lattice_core::View;
use memory_core::Memory;
use overlap_list::CheckFault;
use shot_core::{Pair, Scene};
use std::alloc::Global;
use std::sync::Arc;
use tile_shot::{TileKey, check_tile};

/// The pairs of a tile, or none where there are more than a report may have.
#[derive(Drop)]
pub struct TilePairs {
    pub(crate) pairs: Option<Items<Pair>>,
}

/// The pairs of a tile of regions.
pub(crate) fn pairs_of_tile(
    alloc: Global,
    regions: &Scene,
    view: &View,
    tile: u32,
) -> Result<TilePairs, Memory>
    requires view { IsChecked view.now }
    requires tile { tile < tiles_of view.now }
    ensures { IfOk result (λ shot. IsTileReport regions.now view.now tile shot.pairs) }
{
    match check_tile(alloc, regions, view, tile) {
        Ok(pairs) => Ok(TilePairs {
            pairs: Some(Items::of_vec(pairs)),
        }),
        Err(CheckFault::TooMany) => Ok(TilePairs { pairs: None }),
        Err(CheckFault::Memory) => Err(Memory),
    }
}

/// The places of a scene's regions, in their order.
pub(crate) fn places_of(alloc: Global, regions: &Scene) -> Result<Items<u32>, Memory>
    ensures { IfOk result (λ places. places ≡ places_of regions.now) }
{
    let mut places = Vec::new(alloc);
    let listed = regions.regions();
    for region in listed {
        places.push(region.place())?;
    }
    Ok(Items::of_vec(places))
}

/// The pairs of a tile, with what names them: the name of the tile, and the places of its regions. They are those of regions
/// of these bodies at these places.
#[derive(Drop)]
pub struct NamedPairs {
    key: TileKey,
    places: Items<u32>,
    pairs: TilePairs,
    ghost right: { IsNamedReport key places pairs.pairs } by { named_prop key places pairs.pairs },
}

/// Named pairs that several hold.
#[derive(Drop)]
pub struct SharedPairs {
    named: Arc<NamedPairs>,
}

/// Whether two lists of numbers are the same.
pub(crate) fn are_same(a: &[u32], b: &[u32]) -> bool
    ensures { IsTrue result ↔ (a.now ≡ b.now) }
{
    a == b
}

impl SharedPairs {
    /// The pairs of a tile of regions.
    pub(crate) fn new(
        alloc: Global,
        regions: &Scene,
        view: &View,
        tile: u32,
    ) -> Result<SharedPairs, Memory>
        requires view { IsChecked view.now }
        requires tile { tile < tiles_of view.now }
        ensures key { IfOk result (λ shared. (arc_value shared.named).key ≡ name_of regions.now view.now tile) }
        ensures places { IfOk result (λ shared. (arc_value shared.named).places ≡ places_of regions.now) }
        ensures right { IfOk result (λ shared. IsNamedReport (arc_value shared.named).key (arc_value shared.named).places (arc_value shared.named).pairs.pairs) }
    {
        let key = TileKey::new(alloc, regions, view, tile)?;
        let places = places_of(alloc, regions)?;
        let pairs = pairs_of_tile(alloc, regions, view, tile)?;
        let named = Arc::new(alloc, NamedPairs { key, places, pairs })?;
        Ok(SharedPairs { named })
    }

    /// Another share of the pairs.
    pub(crate) fn share(&self) -> Result<SharedPairs, Memory>
        ensures { IfOk result (λ shared. arc_value shared.named ≡ arc_value self.now.named) }
    {
        let named = self.named.clone()?;
        Ok(SharedPairs { named })
    }

    /// The pairs.
    pub(crate) fn pairs(&self) -> &TilePairs
        ensures value { result.now ≡ (arc_value self.now.named).pairs }
        ensures right { IsNamedReport (arc_value self.now.named).key (arc_value self.now.named).places (arc_value self.now.named).pairs.pairs }
    {
        &self.named.pairs
    }

    /// Whether they have this name and these places.
    pub(crate) fn is_of(&self, key: &TileKey, places: &Items<u32>) -> bool
        ensures { IsTrue result ↔ (((arc_value self.now.named).key ≡ key.now) × ((arc_value self.now.named).places ≡ places.now)) }
    {
        let named = &*self.named;
        named.key == *key && are_same(named.places.items(), places.items())
    }
}
