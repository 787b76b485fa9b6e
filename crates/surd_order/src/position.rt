ghost use Rattle.std.specs.Prelude.{◌≡◌, ◌≢◌, int_div, ◌<◌, ◌^◌, ◌<ℤ◌, pos};
ghost use Rattle.std.specs.Int.{IsGcd};
ghost use Rattle.std.specs.Int.RustNames.{unsigned_abs};
ghost use Rattle.surd_order.specs.Spelling.{fraction_of, IsFraction, IsSpelled, HaveSameFractions};
ghost use Rattle.surd_order.specs.Spelled.{spelled};

use wide_core::{gcd, isqrt};

/// A position on a ray, in tenths of a millimetre from its origin: `p / q`, or `a + √k`, or with `plus` false
/// `a - √k`.
///
/// It has one spelling: a fraction is in lowest terms with `q > 0`, and `k` is not a square. `Pos::frac`
/// and `Pos::surd` make it, and then two positions are equal values exactly where they are one place.
#[derive(Clone, Copy, Debug, PartialEq, Eq)]
pub enum Pos {
    /// The fraction `p / q`.
    Frac { p: i128, q: i128 },
    /// `a + √k` or `a - √k`.
    Surd { a: i64, plus: bool, k: u64 },
}

/// A segment of a ray, with the numbers of the faces at its ends.
#[derive(Clone, Copy, Debug, PartialEq, Eq)]
pub struct Seg {
    /// Where it starts.
    pub start: Pos,
    /// The face there.
    pub start_face: u8,
    /// Where it ends.
    pub end: Pos,
    /// The face there.
    pub end_face: u8,
}

/// The greatest common divisor of the two terms of a fraction.
fn common_divisor(p: i128, q: i128) -> i128
    requires positive { pos 0 <ℤ q }
    ensures divisor { IsGcd (unsigned_abs p) (unsigned_abs q) (unsigned_abs result) }
    ensures positive { pos 0 <ℤ result }
{
    gcd(p.unsigned_abs(), q.unsigned_abs()) as i128
}

/// The quotient, without a remainder where the divisor divides.
fn quotient(n: i128, divisor: i128) -> i128
    requires positive { pos 0 <ℤ divisor }
    ensures { result ≡ int_div n divisor }
{
    n / divisor
}

impl Pos {
    /// Both terms divided by their greatest common divisor.
    fn reduced(p: i128, q: i128) -> Pos
        requires positive { pos 0 <ℤ q }
        ensures fraction { IsFraction result }
        ensures spelled { IsSpelled result }
        ensures same { HaveSameFractions result (Pos.Frac p q) }
    {
        let divisor = common_divisor(p, q);
        Pos::Frac {
            p: quotient(p, divisor),
            q: quotient(q, divisor),
        }
    }

    /// The fraction `p / q` in its one spelling. `q` is not 0, and neither is the least `i128`.
    pub fn frac(p: i128, q: i128) -> Pos
        requires divisor { q ≢ pos 0 }
        requires p_size { unsigned_abs p < 2 ^ 127 }
        requires q_size { unsigned_abs q < 2 ^ 127 }
        ensures fraction { IsFraction result }
        ensures spelled { IsSpelled result }
        ensures same { HaveSameFractions result (fraction_of p q) }
        ensures value { result ≡ spelled (fraction_of p q) }
    {
        if q < 0 {
            Pos::reduced(-p, -q)
        } else {
            Pos::reduced(p, q)
        }
    }

    /// The position `a + √k`, or with `plus` false `a - √k`, in its one spelling: the root of a square is
    /// taken. `a` is below 2^62 in size.
    pub fn surd(a: i64, plus: bool, k: u64) -> Pos
        requires { unsigned_abs a < 2 ^ 62 }
        ensures spelled { IsSpelled result }
        ensures same { HaveSameFractions result (Pos.Surd a plus k) }
        ensures value { result ≡ spelled (Pos.Surd a plus k) }
    {
        let root = isqrt(k as u128);
        if root * root < k as u128 {
            Pos::Surd { a, plus, k }
        } else if plus {
            Pos::Frac {
                p: a as i128 + root as i128,
                q: 1,
            }
        } else {
            Pos::Frac {
                p: a as i128 - root as i128,
                q: 1,
            }
        }
    }
}
