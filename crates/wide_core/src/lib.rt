//! Whole numbers of up to 128 bits: square roots and greatest common divisors.
#![tactic(auto)]

mod divisor;
mod root;

pub use divisor::gcd;
pub use root::isqrt;
