ghost use Rattle.std.specs.Prelude.{◌≡◌};
ghost use Rattle.std.specs.Int.{IsGcd};
ghost use Rattle.wide_core.specs.Gcd.{gcd_of};

/// The greatest number of 64 bits, which one division instruction takes.
const NARROW: u128 = 0xffff_ffff_ffff_ffff;

fn gcd_small(a: u64, b: u64) -> u64
    ensures { IsGcd a b result }
{
    let mut x = a;
    let mut y = b;
    while y != 0 {
        let rest = x % y;
        x = y;
        y = rest;
    }
    x
}

fn gcd_wide(a: u128, b: u128) -> u128
    ensures { IsGcd a b result }
{
    let mut x = a;
    let mut y = b;
    while y > NARROW {
        let rest = x % y;
        x = y;
        y = rest;
    }
    if y == 0 {
        x
    } else {
        gcd_small(y as u64, (x % y) as u64) as u128
    }
}

/// The greatest common divisor, 0 for two zeros.
pub fn gcd(a: u128, b: u128) -> u128
    ensures divisor { IsGcd a b result }
    ensures same { result ≡ gcd_of a b }
{
    if a <= NARROW && b <= NARROW {
        gcd_small(a as u64, b as u64) as u128
    } else {
        gcd_wide(a, b)
    }
}
