ghost use Rattle.std.specs.Prelude.{◌≡◌, ◌↔◌, ◌^◌, pos, IsTrue};
ghost use Rattle.surd_order.specs.declared.range.TheConstants.{OVER_LIMIT, UNDER_LIMIT, WHOLE_LIMIT, SQUARE_LIMIT};
ghost use Rattle.surd_order.specs.Range.{IsInRange};

use crate::Pos;

/// In range a fraction's numerator is below this in size.
pub const OVER_LIMIT: u128 = 1 << 63;

/// In range a fraction's denominator is below this.
pub const UNDER_LIMIT: i128 = 1 << 38;

/// In range the whole number beside a root is below this in size.
pub const WHOLE_LIMIT: u64 = 1 << 23;

/// In range the number under a root is below this.
pub const SQUARE_LIMIT: u64 = 1 << 35;

impl Pos {
    /// Whether the position is in the range that `Pos::cmp` takes.
    pub fn is_in_range(&self) -> bool
        ensures { IsTrue result ↔ IsInRange self.now }
    {
        match *self {
            Pos::Frac { p, q } => p.unsigned_abs() < OVER_LIMIT && 0 < q && q < UNDER_LIMIT,
            Pos::Surd { a, k, .. } => a.unsigned_abs() < WHOLE_LIMIT && k < SQUARE_LIMIT,
        }
    }
}

/// The limits are these numbers. This law is what refuses another constant.
pub fn limit_laws()
    ensures over { OVER_LIMIT ≡ 2 ^ 63 }
    ensures under { UNDER_LIMIT ≡ pos (2 ^ 38) }
    ensures whole { WHOLE_LIMIT ≡ 2 ^ 23 }
    ensures square { SQUARE_LIMIT ≡ 2 ^ 35 }
{}
