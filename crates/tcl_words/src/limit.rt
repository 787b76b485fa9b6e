ghost use Rattle.std.specs.Prelude.{◌≡◌};
ghost use Rattle.tcl_words.specs.Faults.{most_open};
ghost use Rattle.tcl_words.specs.declared.limit.TheConstants.{MOST_OPEN};

/// How many groups may be open at once.
pub(crate) const MOST_OPEN: u32 = 4_100;

/// The limit is this number, in definitions and in code. This law is what refuses another one.
pub fn limit_laws()
    ensures open { most_open ≡ 4100 }
    ensures open_in_code { MOST_OPEN ≡ 4100 }
{}
