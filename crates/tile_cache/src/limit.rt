ghost use Rattle.std.specs.Prelude.{◌≡◌};
ghost use Rattle.tile_cache.specs.Kept.{most_kept};
ghost use Rattle.tile_cache.specs.declared.limit.TheConstants.{MOST_KEPT};

/// The greatest number of values that are kept.
pub const MOST_KEPT: usize = 4096;

/// The limit is this number. This law is what refuses another constant.
pub fn limit_laws()
    ensures kept { MOST_KEPT ≡ 4096 }
    ensures defined { most_kept ≡ 4096 }
{}
