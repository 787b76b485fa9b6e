//! Whether bodies are small enough that a tile of them may be kept.
ghost use Rattle.std.specs.Prelude.{◌≡◌, map};
ghost use Rattle.std.specs.Arc.{arc_value};
ghost use Rattle.tile_shot.specs.Named.{are_small};

use crate::limit::MOST_TILE_SIZE;
use shot_core::PrepRegion;
use std::sync::Arc;

/// Whether the size of the bodies together is at most `MOST_TILE_SIZE`.
pub fn are_small(bodies: &[Arc<PrepRegion>]) -> bool
    ensures { result ≡ are_small (map arc_value bodies.now) }
{
    let mut room = MOST_TILE_SIZE;
    for body in bodies {
        if room < body.size() {
            return false;
        }
        room -= body.size();
    }
    true
}
