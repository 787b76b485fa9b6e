ghost use Rattle.std.specs.Prelude.{◌≡◌};
ghost use Rattle.shot_core.specs.declared.limit.TheConstants.{MOST_LEAVES};

/// The greatest number of instances of a scene, and the greatest size of its bodies together.
pub const MOST_LEAVES: usize = 65_536;

/// A scene of at most so many instances has no index of their boxes.
pub(crate) const FEW_INSTANCES: usize = 8;

/// The limit is this number. This law is what refuses another constant.
pub fn limit_laws()
    ensures leaves { MOST_LEAVES ≡ 65536 }
{}
