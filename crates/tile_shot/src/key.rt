use crate::feed::feed_name;
use crate::same::same_bodies;
use crate::small::are_small;
use item_list::Items;
use lattice_core::View;
use memory_core::Memory;
use shot_core::{PrepRegion, Scene};
use std::alloc::Global;
use std::hash::{FoldHasher, Hash, Hasher};
use std::marker::Model;
use std::sync::Arc;

/// What names a tile: a view without a fault, the number of one of its tiles, and what regions are wherever they stand.
/// Contracts see it as these three. Two are equal where they are by value: of each body the number, the air, the colour, the
/// tree with its leaves that are always false, and the solids by their kind, their planes, centre and radius in the world.
#[derive(Debug, Drop)]
pub struct TileKey {
    view: View,
    tile: u32,
    bodies: Arc<Items<Arc<PrepRegion>>>,
    /// The hash of these three. It is taken once, as each look-up of the name wants it.
    digest: u64,
}

impl Model for TileKey {
    ghost use Rattle.std.specs.Prelude.{◌≡◌, ◌<◌, map};
    ghost use Rattle.std.specs.Arc.{arc_value};
    ghost use Rattle.lattice_core.specs.Views.{IsChecked};
    ghost use Rattle.lattice_core.specs.Tiles.{tiles_of};
    ghost use Rattle.tile_shot.specs.Named.{TileName, name_code};
    ghost use Rattle.tile_shot.specs.Same.{digest_of};

    ghost Value = { TileName };

    ghost coded = { name_code };

    ghost view = { λ s. record { view = s.view; tile = s.tile; bodies = map arc_value (arc_value s.bodies) } };

    ghost invariant = { λ s. IsChecked s.view × (s.tile < tiles_of s.view) × (s.digest ≡ digest_of (record { view = s.view; tile = s.tile; bodies = map arc_value (arc_value s.bodies) })) };
}

impl PartialEq for TileKey {
    ghost use Rattle.std.specs.Prelude.{◌≡◌, ◌↔◌, IsTrue};
    ghost use Rattle.tile_shot.specs.Same.{same_name};
    ghost use Rattle.tile_shot.specs.Sameness.{name_partial};

    ghost eq = { same_name };

    ghost laws = { name_partial };

    /// Whether both name one tile: whether they are equal by value.
    fn eq(&self, other: &TileKey) -> bool
        ensures same { result ≡ same_name self.now other.now }
        ensures equal { IsTrue result ↔ (self.now ≡ other.now) }
    {
        self.is_same(other)
    }
}

impl Eq for TileKey {
    ghost use Rattle.tile_shot.specs.Sameness.{name_equiv};

    ghost laws = { name_equiv };
}

impl Hash for TileKey {
    ghost use Rattle.tile_shot.specs.Same.{digest_input};
    ghost use Rattle.tile_shot.specs.Sameness.{input_same};

    ghost hash_input = { digest_input };

    ghost respects_eq = { input_same };

    fn hash<H: Hasher>(&self, state: &mut H) {
        self.digest.hash(state);
    }
}

ghost use Rattle.std.specs.Prelude.{◌≡◌, IfOk, map};
ghost use Rattle.std.specs.Arc.{arc_value};
ghost use Rattle.tile_shot.specs.Pixels.{bodies_of};
ghost use Rattle.tile_shot.specs.Same.{digest_of};

/// The hash of a view, the number of a tile and bodies.
#[tactic(auto, unfolding(crate::specs::Same::digest_of))]
fn digest_of(view: &View, tile: u32, bodies: &[Arc<PrepRegion>]) -> u64
    ensures { result ≡ digest_of (record { view = view.now; tile = tile; bodies = map arc_value bodies.now }) }
{
    let mut state = FoldHasher::default();
    feed_name(view, tile, bodies, &mut state);
    state.finish()
}

/// What the regions of a scene are, in their order.
fn bodies_of(alloc: Global, scene: &Scene) -> Result<Items<Arc<PrepRegion>>, Memory>
    ensures { IfOk result (λ bodies. map arc_value bodies ≡ bodies_of scene.now) }
{
    let regions = scene.regions();
    let mut bodies = Vec::with_capacity(alloc, regions.len())?;
    for region in regions {
        bodies.push(region.body().clone()?)?;
    }
    Ok(Items::of_vec(bodies))
}

impl TileKey {
    ghost use Rattle.std.specs.Prelude.{◌≡◌, ◌<◌, IfOk, map};
    ghost use Rattle.std.specs.Arc.{arc_value};
    ghost use Rattle.lattice_core.specs.Views.{IsChecked};
    ghost use Rattle.lattice_core.specs.Tiles.{tiles_of};
    ghost use Rattle.tile_shot.specs.Pixels.{bodies_of};
    ghost use Rattle.tile_shot.specs.Named.{name_of, is_small_name};
    ghost use Rattle.tile_shot.specs.Same.{same_name};

    fn is_same(&self, other: &TileKey) -> bool
        ensures { result ≡ same_name self.now other.now }
    {
        self.view == other.view
            && self.tile == other.tile
            && same_bodies(self.bodies(), other.bodies())
    }

    /// The name of a tile of a view of a scene's regions.
    pub fn new(alloc: Global, scene: &Scene, view: &View, tile: u32) -> Result<TileKey, Memory>
        requires view { IsChecked view.now }
        requires tile { tile < tiles_of view.now }
        ensures { IfOk result (λ key. key ≡ name_of scene.now view.now tile) }
    {
        TileKey::of_bodies(alloc, bodies_of(alloc, scene)?, view, tile)
    }

    /// The name of a tile of a view in which the regions are these.
    pub fn of_bodies(
        alloc: Global,
        bodies: Items<Arc<PrepRegion>>,
        view: &View,
        tile: u32,
    ) -> Result<TileKey, Memory>
        requires view { IsChecked view.now }
        requires tile { tile < tiles_of view.now }
        ensures { IfOk result (λ key. key ≡ record { view = view.now; tile = tile; bodies = map arc_value bodies }) }
    {
        let digest = digest_of(view, tile, bodies.items());
        let bodies = Arc::new(alloc, bodies)?;
        Ok(TileKey {
            view: *view,
            tile,
            bodies,
            digest,
        })
    }

    /// Another share of the name. It copies no list.
    pub fn share(&self) -> Result<TileKey, Memory>
        ensures { IfOk result (λ key. key ≡ self.now) }
    {
        let bodies = self.bodies.clone()?;
        Ok(TileKey {
            view: self.view,
            tile: self.tile,
            bodies,
            digest: self.digest,
        })
    }

    /// Whether a tile of this name may be kept: whether the size of the bodies together is at most `MOST_TILE_SIZE`.
    pub fn is_small(&self) -> bool
        ensures { result ≡ is_small_name self.now }
    {
        are_small(self.bodies())
    }

    /// The view, which has no fault.
    pub fn view(&self) -> &View
        ensures value { result.now ≡ self.now.view }
        ensures checked { IsChecked result.now }
    {
        &self.view
    }

    /// The number of the tile, which is one of the view.
    pub fn tile(&self) -> u32
        ensures value { result ≡ self.now.tile }
        ensures in_view { result < tiles_of self.now.view }
    {
        self.tile
    }

    /// What the regions are, in their order.
    pub fn bodies(&self) -> &[Arc<PrepRegion>]
        ensures { map arc_value result.now ≡ self.now.bodies }
    {
        self.bodies.items()
    }
}
