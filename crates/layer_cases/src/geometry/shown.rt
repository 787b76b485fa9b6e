//! Answers as rows want them.

use case_text::{CaseFault, Shown};
use itoa::Integer;
use lattice_core::V3;

/// Puts in a text.
pub fn push_text(text: &[u8], out: &mut Shown) -> Result<(), CaseFault> {
    out.put(text);
    Ok(())
}

/// Puts in a number in decimal digits.
pub fn push_number<I: Integer>(number: I, out: &mut Shown) -> Result<(), CaseFault> {
    out.put_number(number);
    Ok(())
}

/// Puts in a point or a vector as `X,Y,Z`.
pub fn put_point(p: V3, out: &mut Shown) {
    out.put_number(p.x);
    out.put_byte(b',');
    out.put_number(p.y);
    out.put_byte(b',');
    out.put_number(p.z);
}
