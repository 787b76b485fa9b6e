ghost use Rattle.std.specs.Prelude.{◌≡◌};
ghost use Rattle.region_attr.specs.Ranges.{most_number, most_los, most_part};

/// The greatest number of a region, an air and a material.
pub(crate) const MOST_NUMBER: u32 = 999_999;

/// The greatest density.
pub(crate) const MOST_LOS: u32 = 100;

/// The greatest red, green or blue part.
pub(crate) const MOST_PART: u32 = 255;

/// The limits are these numbers. This law is what refuses others.
pub fn limit_laws()
    ensures number { most_number ≡ 999999 }
    ensures density { most_los ≡ 100 }
    ensures part { most_part ≡ 255 }
{}
