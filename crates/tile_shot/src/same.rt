//! Whether bodies are the same by value.

ghost use Rattle.std.specs.Prelude.{◌≡◌, ◌≤◌, map, length};
ghost use Rattle.std.specs.Arc.{arc_value};
ghost use Rattle.std.specs.Cmp.Lexicographic.{pointwise};
ghost use Rattle.shot_core.specs.Prepared.{instance_of};
ghost use Rattle.tile_shot.specs.Same.{same_instance, same_body};

use shot_core::PrepRegion;
use solid_set::Placed;
use std::sync::Arc;

fn same_solids(a: &[Placed], b: &[Placed]) -> bool
    ensures { result ≡ pointwise same_instance (map instance_of a.now) (map instance_of b.now) }
{
    a == b
}

fn same_body(a: &PrepRegion, b: &PrepRegion) -> bool
    ensures { result ≡ same_body a.now b.now }
{
    a.id() == b.id()
        && a.air() == b.air()
        && a.rgb() == b.rgb()
        && a.tree().nodes() == b.tree().nodes()
        && same_solids(a.solids(), b.solids())
}

/// Whether the lists have the same bodies in the same order.
pub(crate) fn same_bodies(a: &[Arc<PrepRegion>], b: &[Arc<PrepRegion>]) -> bool
    ensures { result ≡ pointwise same_body (map arc_value a.now) (map arc_value b.now) }
{
    if a.len() != b.len() {
        return false;
    }
    for i in 0..a.len() {
        if !same_body(&a[i], &b[i]) {
            return false;
        }
    }
    true
}
