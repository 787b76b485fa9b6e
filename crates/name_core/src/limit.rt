ghost use Rattle.std.specs.Prelude.{◌≡◌};
ghost use Rattle.name_core.specs.declared.limit.TheConstants.{MOST_BYTES};

/// The greatest number of bytes of a name.
pub const MOST_BYTES: usize = 64;

/// The limit is this number. This law is what refuses another constant.
pub fn limit_laws()
    ensures bytes { MOST_BYTES ≡ 64 }
{}
