ghost use Rattle.std.specs.Prelude.{◌≡◌};
ghost use Rattle.shared_pages.specs.Pages.{most_pairs};
ghost use Rattle.shared_pages.specs.declared.limit.TheConstants.{MOST_PAIRS};

/// The greatest number of pairs on a page.
pub const MOST_PAIRS: usize = 8;

/// The limit is this number. This law is what refuses another constant.
pub fn limit_laws()
    ensures pairs { MOST_PAIRS ≡ 8 }
    ensures same { MOST_PAIRS ≡ most_pairs }
{}
