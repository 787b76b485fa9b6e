ghost use Rattle.std.specs.Prelude.{◌≡◌};
ghost use Rattle.object_pages.specs.Entries.{most_objects};
ghost use Rattle.object_pages.specs.declared.limit.TheConstants.{OBJECTS};

/// The greatest number of objects.
pub const OBJECTS: usize = 65_535;

/// The limit is this number. This law is what refuses another constant.
pub fn limit_laws()
    ensures objects { OBJECTS ≡ 65535 }
    ensures same { OBJECTS ≡ most_objects }
{}
