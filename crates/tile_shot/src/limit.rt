ghost use Rattle.std.specs.Prelude.{◌≡◌};
ghost use Rattle.tile_shot.specs.Named.{most_tile_size};
ghost use Rattle.tile_shot.specs.declared.limit.TheConstants.{MOST_TILE_SIZE};

/// The greatest size of the bodies of a tile's regions together with which the tile may be kept.
pub const MOST_TILE_SIZE: u32 = 128;

/// The limit is this number. This law is what refuses another constant.
pub fn limit_laws()
    ensures size { MOST_TILE_SIZE ≡ 128 }
    ensures defined { most_tile_size ≡ 128 }
{}
