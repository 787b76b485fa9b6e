ghost use Rattle.std.specs.Prelude.{◌≡◌};
ghost use Rattle.comb_tree.specs.declared.limit.TheConstants.{LEAVES};

/// The greatest number of leaves of a tree.
pub const LEAVES: usize = 4_096;

/// The limit is this number. This law is what refuses another constant.
pub fn limit_laws()
    ensures leaves { LEAVES ≡ 4096 }
{}
