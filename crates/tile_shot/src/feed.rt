//! What a hasher is fed of bodies.
ghost use Rattle.std.specs.Prelude.{◌≡◌, fold, flat_map, map};
ghost use Rattle.std.specs.Hash as fed;
ghost use Rattle.std.specs.Arc.{arc_value};
ghost use Rattle.tile_shot.specs.Same.{digest_fed, name_input};

use lattice_core::View;
use shot_core::PrepRegion;
use std::hash::{Hash, Hasher};
use std::sync::Arc;

/// Feeds how many bodies there are, and the hash of each in its turn.
fn feed_bodies<H: Hasher>(bodies: &[Arc<PrepRegion>], state: &mut H)
    ensures { state.new ≡ fold H.write state.old (fed.slice digest_fed (map arc_value bodies.now)) }
{
    state.write_usize(bodies.len());
    for body in bodies {
        state.write_u64(body.digest());
    }
}

/// Feeds what a name is hashed by: a view, the number of a tile, and the hashes of bodies.
pub(crate) fn feed_name<H: Hasher>(
    view: &View,
    tile: u32,
    bodies: &[Arc<PrepRegion>],
    state: &mut H,
)
    ensures { state.new ≡ fold H.write state.old (name_input (record { view = view.now; tile = tile; bodies = map arc_value bodies.now })) }
{
    view.hash(state);
    state.write_u32(tile);
    feed_bodies(bodies, state);
}
