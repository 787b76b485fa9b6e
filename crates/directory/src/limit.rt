ghost use Rattle.std.specs.Prelude.{◌≡◌};
ghost use Rattle.directory.specs.Walks.{most_objects, most_depth};

/// The greatest number of combinations on a walk.
pub(crate) const DEPTH: u8 = 16;

/// The limits are these numbers. This law is what refuses others.
pub fn limit_laws()
    ensures objects { most_objects ≡ 65535 }
    ensures depth { most_depth ≡ 16 }
{}
