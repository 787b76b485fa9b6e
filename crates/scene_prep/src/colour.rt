ghost use Rattle.std.specs.Prelude.{◌≡◌};
ghost use Rattle.scene_prep.specs.Steps.{no_colour, under_comb};

use region_attr::{Attr, Rgb};

/// The colour that the combinations down to some place come to.
#[derive(Clone, Copy, Debug)]
pub(crate) struct Colour {
    rgb: Rgb,
    /// Whether it takes the place of those further down.
    inherited: bool,
}

/// The colour where no combination has one.
const WHITE: Rgb = Rgb {
    r: 255,
    g: 255,
    b: 255,
};

impl Colour {
    /// The colour under no combination.
    pub(crate) fn white() -> Colour
        ensures { result ≡ no_colour }
    {
        Colour {
            rgb: WHITE,
            inherited: false,
        }
    }

    /// The colour under one more combination, which is below the others.
    pub(crate) fn under(&self, attr: &Attr) -> Colour
        ensures { result ≡ under_comb self.now attr.now }
    {
        match attr.rgb {
            Some(rgb) if !self.inherited => Colour {
                rgb,
                inherited: attr.inherit,
            },
            _ => *self,
        }
    }

    pub(crate) fn rgb(&self) -> Rgb
        ensures { result ≡ self.now.rgb }
    {
        self.rgb
    }
}
