ghost use Rattle.std.specs.Prelude.{◌≡◌, ◌≤◌, ◌<◌, ◌*◌, ◌+◌, ◌^◌};
ghost use Rattle.wide_core.specs.Root.{root_of};

/// A power of two that is above the square root, and at most about twice it.
fn power_above(n: u64) -> u64
    ensures above { n < result * result }
    ensures small { result ≤ 2 ^ 32 }
{
    1 << ((65 - n.leading_zeros()) / 2)
}

/// The square root, rounded down, by Newton's steps from above.
fn isqrt_small(n: u64) -> u64
    requires { 0 < n }
    ensures square { result * result ≤ n }
    ensures next { n < (result + 1) * (result + 1) }
{
    let mut root = power_above(n);
    while root > n / root {
        root = (root + n / root) / 2;
    }
    root
}

fn isqrt_wide(n: u128) -> u128
    requires { 0 < n }
    ensures square { result * result ≤ n }
    ensures next { n < (result + 1) * (result + 1) }
{
    let mut root: u128 = 1 << 64;
    while root > n / root {
        root = (root + n / root) / 2;
    }
    root
}

/// The greatest whole number whose square is at most `n`.
pub fn isqrt(n: u128) -> u128
    ensures square { result * result ≤ n }
    ensures next { n < (result + 1) * (result + 1) }
    ensures same { result ≡ root_of n }
{
    if n == 0 {
        0
    } else if n < 1 << 64 {
        isqrt_small(n as u64) as u128
    } else {
        isqrt_wide(n)
    }
}
