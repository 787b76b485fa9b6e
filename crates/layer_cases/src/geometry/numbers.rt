//! Rows of whole numbers.

use crate::geometry::words::Words;
use case_text::Shown;
use wide_core::{gcd, isqrt};

/// `gcd A B => DIVISOR`
pub fn answer_gcd(words: &mut Words, out: &mut Shown) {
    let a = words.natural();
    let b = words.natural();
    out.put_number(gcd(a, b));
}

/// `isqrt N => ROOT`
pub fn answer_isqrt(words: &mut Words, out: &mut Shown) {
    out.put_number(isqrt(words.natural()));
}
