ghost use Rattle.std.specs.Prelude.{◌≡◌, true, false, ◌+◌, ◌*◌, ◌<◌, ◌≤◌, ◌^◌, pos, ◌+ℤ◌, ◌-ℤ◌, ◌*ℤ◌, ◌≤ℤ◌};
ghost use Rattle.std.specs.Int.RustNames.{unsigned_abs};
ghost use Rattle.std.specs.Ordering.{int_cmp};
ghost use Rattle.surd_order.specs.Order.{IsOrderOf};
ghost use Rattle.surd_order.specs.PlaceOrder.{place_cmp};
ghost use Rattle.surd_order.specs.Range.{IsInRange, IsFractionInRange, IsSurdInRange, AreNear};
ghost use Rattle.surd_order.specs.Roots.{IsRootOrder};

use crate::{Pos, WHOLE_LIMIT};
use std::cmp::Ordering;

/// The exact product of two numbers of at most 64 bits, which one multiplication gives.
pub fn product(a: i128, b: i128) -> i128
    requires first { unsigned_abs a < 2 ^ 63 }
    requires second { unsigned_abs b < 2 ^ 63 }
    ensures { result ≡ a *ℤ b }
{
    (a as i64) as i128 * (b as i64) as i128
}

/// The order of `p / q` and `r / s`, which is that of their cross products.
pub fn cmp_fractions(p: i128, q: i128, r: i128, s: i128) -> Ordering
    requires p_size { unsigned_abs p < 2 ^ 63 }
    requires q_size { unsigned_abs q < 2 ^ 63 }
    requires r_size { unsigned_abs r < 2 ^ 63 }
    requires s_size { unsigned_abs s < 2 ^ 63 }
    ensures { result ≡ int_cmp (p *ℤ s) (r *ℤ q) }
{
    product(p, s).cmp(&product(r, q))
}

/// The order of `m` and `√n`: a negative number is below every root, and else the squares decide, which
/// are below 2^127.
pub fn cmp_root(m: i128, n: u128) -> Ordering
    requires { unsigned_abs m ≤ 5 * 2 ^ 61 }
    ensures { IsRootOrder result m (pos n) }
{
    if m < 0 {
        return Ordering::Less;
    }
    let size = (m as u64) as u128;
    (size * size).cmp(&n)
}

/// `k q²`, whose root is `q √k`. As `q²` may pass 64 bits, one of the two multiplications is one of 128 bits.
pub fn scaled_square(k: u64, q: i128) -> u128
    requires k_size { k < 2 ^ 41 }
    requires q_positive { pos 0 ≤ℤ q }
    requires q_size { unsigned_abs q < 2 ^ 42 }
    ensures value { pos result ≡ pos k *ℤ (q *ℤ q) }
    ensures size { result < 2 ^ 126 }
{
    let side = (q as u64) as u128;
    side * side * k as u128
}

/// `p - a q`: what stands beside the root once `a` is taken from `p / q`.
fn offset(p: i128, q: i128, a: i64) -> i128
    requires fraction { IsFractionInRange p q }
    requires whole { unsigned_abs a < WHOLE_LIMIT }
    ensures value { result ≡ p -ℤ (a *ℤ q) }
    ensures size { unsigned_abs result ≤ 5 * 2 ^ 61 }
{
    p - product(a as i128, q)
}

/// How far `b` is above `a`.
fn distance(a: i64, b: i64) -> u64
    requires order { a ≤ℤ b }
    requires near { unsigned_abs (b -ℤ a) < 2 ^ 28 }
    ensures apart { b ≡ a +ℤ pos result }
    ensures size { result < 2 ^ 28 }
{
    (b - a) as u64
}

fn cmp_fraction_with_sum(p: i128, q: i128, a: i64, k: u64) -> Ordering
    requires fraction { IsFractionInRange p q }
    requires surd { IsSurdInRange a k }
    ensures { IsOrderOf result (Pos.Frac p q) (Pos.Surd a true k) }
{
    cmp_root(offset(p, q, a), scaled_square(k, q))
}

fn cmp_fraction_with_difference(p: i128, q: i128, a: i64, k: u64) -> Ordering
    requires fraction { IsFractionInRange p q }
    requires surd { IsSurdInRange a k }
    ensures { IsOrderOf result (Pos.Frac p q) (Pos.Surd a false k) }
{
    cmp_root(-offset(p, q, a), scaled_square(k, q)).reverse()
}

/// The order of `√k` and `d + √l`, which is that of `k - d² - l` and `√(4 d² l)`.
fn cmp_root_with_sum(k: u64, d: u64, l: u64) -> Ordering
    requires k_size { k < 2 ^ 53 }
    requires d_size { d < 2 ^ 28 }
    requires l_size { l < 2 ^ 53 }
    ensures { IsRootOrder result (pos k -ℤ pos (d * d + l)) (pos (4 * (d * d * l))) }
{
    let square = d * d;
    cmp_root(
        k as i128 - (square + l) as i128,
        4 * (square as u128 * l as u128),
    )
}

/// The order of `d` and `√k + √l`, which is that of `d² - k - l` and `√(4 k l)`.
fn cmp_whole_with_roots(d: u64, k: u64, l: u64) -> Ordering
    requires d_size { d < 2 ^ 28 }
    requires k_size { k < 2 ^ 53 }
    requires l_size { l < 2 ^ 53 }
    ensures { IsRootOrder result (pos (d * d) -ℤ pos (k + l)) (pos (4 * (k * l))) }
{
    cmp_root(
        (d * d) as i128 - (k + l) as i128,
        4 * (k as u128 * l as u128),
    )
}

/// The order of `a + √k` and `b + √l`.
fn cmp_sums(a: i64, k: u64, b: i64, l: u64) -> Ordering
    requires { AreNear a k b l }
    ensures { IsOrderOf result (Pos.Surd a true k) (Pos.Surd b true l) }
{
    if a <= b {
        cmp_root_with_sum(k, distance(a, b), l)
    } else {
        cmp_root_with_sum(l, distance(b, a), k).reverse()
    }
}

/// The order of `a - √k` and `b - √l`.
fn cmp_differences(a: i64, k: u64, b: i64, l: u64) -> Ordering
    requires { AreNear a k b l }
    ensures { IsOrderOf result (Pos.Surd a false k) (Pos.Surd b false l) }
{
    if a <= b {
        cmp_root_with_sum(l, distance(a, b), k)
    } else {
        cmp_root_with_sum(k, distance(b, a), l).reverse()
    }
}

/// The order of `a + √k` and `b - √l`.
fn cmp_sum_with_difference(a: i64, k: u64, b: i64, l: u64) -> Ordering
    requires { AreNear a k b l }
    ensures { IsOrderOf result (Pos.Surd a true k) (Pos.Surd b false l) }
{
    if a <= b {
        cmp_whole_with_roots(distance(a, b), k, l).reverse()
    } else {
        Ordering::Greater
    }
}

impl Pos {
    /// The exact order of two positions in range. It is decided by signs and by products below 2^127, and
    /// takes no memory. Two fractions take two multiplications of 64 by 64 bits; beside a root the square of a
    /// denominator may pass 64 bits, and is multiplied in 128.
    pub fn cmp(&self, other: &Pos) -> Ordering
        requires self_in_range { IsInRange self.now }
        requires other_in_range { IsInRange other.now }
        ensures order { IsOrderOf result self.now other.now }
        ensures same { result ≡ place_cmp self.now other.now }
    {
        match (*self, *other) {
            (Pos::Frac { p, q }, Pos::Frac { p: r, q: s }) => cmp_fractions(p, q, r, s),
            (Pos::Frac { p, q }, Pos::Surd { a, plus, k }) => cmp_fraction_with_surd(
                p, q, a, plus, k,
            ),
            (Pos::Surd { a, plus, k }, Pos::Frac { p, q }) => {
                cmp_fraction_with_surd(p, q, a, plus, k).reverse()
            }
            (
                Pos::Surd { a, plus, k },
                Pos::Surd {
                    a: b,
                    plus: also_plus,
                    k: l,
                },
            ) => { cmp_surds(a, plus, k, b, also_plus, l) }
        }
    }
}

fn cmp_fraction_with_surd(p: i128, q: i128, a: i64, plus: bool, k: u64) -> Ordering
    requires fraction { IsFractionInRange p q }
    requires surd { IsSurdInRange a k }
    ensures { IsOrderOf result (Pos.Frac p q) (Pos.Surd a plus k) }
{
    if plus {
        cmp_fraction_with_sum(p, q, a, k)
    } else {
        cmp_fraction_with_difference(p, q, a, k)
    }
}

/// The order of `a + √k` or `a - √k` and `b + √l` or `b - √l`.
pub fn cmp_surds(a: i64, plus: bool, k: u64, b: i64, also_plus: bool, l: u64) -> Ordering
    requires { AreNear a k b l }
    ensures { IsOrderOf result (Pos.Surd a plus k) (Pos.Surd b also_plus l) }
{
    match (plus, also_plus) {
        (true, true) => cmp_sums(a, k, b, l),
        (false, false) => cmp_differences(a, k, b, l),
        (true, false) => cmp_sum_with_difference(a, k, b, l),
        (false, true) => cmp_sum_with_difference(b, l, a, k).reverse(),
    }
}
