//! Positions as they are written: `5`, `-1/3`, `10-sqrt(23)`.

ghost use Rattle.std.specs.Prelude.{IfOk};
ghost use Rattle.surd_order.specs.Spelling.{IsSpelled};

use crate::texts::{cut, long_in, whole_in};
use case_text::{CaseFault, Shown};
use surd_order::{Pos, PosText};

fn fraction_of(over: i128, under: i128) -> Result<Pos, CaseFault>
    ensures { IfOk result IsSpelled }
{
    if under == 0 || under == i128::MIN || over == i128::MIN {
        return Err(CaseFault::Number);
    }
    Ok(Pos::frac(over, under))
}

fn read_fraction(text: &[u8]) -> Result<Pos, CaseFault>
    ensures { IfOk result IsSpelled }
{
    match cut(text, b'/') {
        Some((over, under)) => fraction_of(whole_in(over)?, whole_in(under)?),
        None => fraction_of(whole_in(text)?, 1),
    }
}

fn read_root(whole: &[u8], plus: bool, under: &[u8]) -> Result<Pos, CaseFault>
    ensures { IfOk result IsSpelled }
{
    let k = long_in(under)?;
    match i64::try_from(whole_in(whole)?) {
        Ok(a) if a.unsigned_abs() < 1 << 62 => Ok(Pos::surd(a, plus, k)),
        _ => Err(CaseFault::Number),
    }
}

/// The position of a word.
pub fn read_position(text: &[u8]) -> Result<Pos, CaseFault>
    ensures { IfOk result IsSpelled }
{
    match cut(text, b's') {
        None => read_fraction(text),
        Some(([whole @ .., b'+'], [b'q', b'r', b't', b'(', under @ .., b')'])) => {
            read_root(whole, true, under)
        }
        Some(([whole @ .., b'-'], [b'q', b'r', b't', b'(', under @ .., b')'])) => {
            read_root(whole, false, under)
        }
        Some(_) => Err(CaseFault::Number),
    }
}

/// Puts in a text, and a position behind it.
pub fn put_position(out: &mut Shown, before: &[u8], position: &Pos) {
    let mut text = PosText::new();
    position.write_text(&mut text);
    out.put(before);
    out.put(text.bytes());
}
