//! Rows of positions on a ray.

ghost use Rattle.std.specs.Prelude.{IfOk};
ghost use Rattle.surd_order.specs.Range.{IsInRange};
ghost use Rattle.surd_order.specs.Spelling.{IsSpelled};

use crate::geometry::words::{Words, parted};
use case_text::{CaseFault, Shown, words_of};
use ranged_position::RangedPos;
use std::alloc::Global;
use std::cmp::Ordering;
use std::collections::BTreeMap;
use surd_order::{Pos, PosText};

/// What stands beside a root is below this in size.
pub const WHOLE: u64 = 1 << 62;

/// Puts in the text of a position.
pub fn put_position(position: &Pos, out: &mut Shown) {
    let mut text = PosText::new();
    position.write_text(&mut text);
    out.put(text.bytes());
}

/// The fraction of two words, in no matter what spelling.
fn fraction(words: &mut Words, over: &[u8], under: &[u8]) -> Pos {
    let p = words.number_in(over);
    let q = words.number_in(under);
    Pos::Frac { p, q }
}

/// The sum or difference of a whole number and a root that three words are, in no matter what spelling.
fn surd(words: &mut Words, whole: &[u8], sign: u8, square: &[u8]) -> Pos {
    let whole = i64::try_from(words.number_in(whole));
    let square = u64::try_from(words.number_in(square));
    if let (Ok(a), Ok(k)) = (whole, square) {
        if sign == b'+' || sign == b'-' {
            return Pos::Surd {
                a,
                plus: sign == b'+',
                k,
            };
        }
    }
    words.refuse(CaseFault::Number);
    Pos::Frac { p: 0, q: 1 }
}

/// The position that a word is: `P`, `P/Q`, `A+sqrt(K)` or `A-sqrt(K)`, in no matter what spelling.
pub fn position(words: &mut Words, word: &[u8]) -> Pos {
    if let Some((over, under)) = parted(word, b'/') {
        return fraction(words, over, under);
    }
    match parted(word, b's') {
        Some(([whole @ .., sign], [b'q', b'r', b't', b'(', square @ .., b')'])) => {
            surd(words, whole, *sign, square)
        }
        _ => fraction(words, word, b"1"),
    }
}

/// The position in its one spelling.
fn spelled(position: Pos) -> Result<Pos, CaseFault>
    ensures { IfOk result IsSpelled }
{
    match position {
        Pos::Frac { p, q } => {
            if q == 0 || q == i128::MIN || p == i128::MIN {
                return Err(CaseFault::Number);
            }
            Ok(Pos::frac(p, q))
        }
        Pos::Surd { a, plus, k } => {
            if a.unsigned_abs() >= WHOLE {
                return Err(CaseFault::Number);
            }
            Ok(Pos::surd(a, plus, k))
        }
    }
}

/// Puts in a position in its one spelling.
fn put_spelled(words: &mut Words, position: Pos, out: &mut Shown) {
    match spelled(position) {
        Ok(position) => put_position(&position, out),
        Err(fault) => words.refuse(fault),
    }
}

/// Reads `P Q`, the terms of a fraction.
fn fraction_in(words: &mut Words) -> Pos {
    let over = words.next();
    let under = words.next();
    fraction(words, over, under)
}

/// Reads `A + K` or `A - K`, of `A + √K` or `A - √K`.
fn surd_in(words: &mut Words) -> Pos {
    let whole = words.next();
    let sign = words.next();
    let square = words.next();
    match *sign {
        [sign] => surd(words, whole, sign, square),
        _ => surd(words, whole, 0, square),
    }
}

/// `fraction P Q => POSITION`, in its one spelling
pub fn answer_fraction(words: &mut Words, out: &mut Shown) {
    let position = fraction_in(words);
    put_spelled(words, position, out);
}

/// `surd A + K => POSITION` or `surd A - K => POSITION`, in its one spelling
pub fn answer_surd(words: &mut Words, out: &mut Shown) {
    let position = surd_in(words);
    put_spelled(words, position, out);
}

/// `fraction_text P Q => TEXT`, of the numbers as they stand
pub fn answer_fraction_text(words: &mut Words, out: &mut Shown) {
    put_position(&fraction_in(words), out);
}

/// `surd_text A + K => TEXT` or `surd_text A - K => TEXT`, of the numbers as they stand
pub fn answer_surd_text(words: &mut Words, out: &mut Shown) {
    put_position(&surd_in(words), out);
}

/// The position that a word is, which is to be in range.
fn near_position(words: &mut Words) -> Result<Pos, CaseFault>
    ensures { IfOk result IsInRange }
{
    let word = words.next();
    let position = position(words, word);
    if position.is_in_range() {
        Ok(position)
    } else {
        Err(CaseFault::Number)
    }
}

/// The word for an order.
pub fn order_word(order: Ordering) -> &'static [u8] {
    match order {
        Ordering::Less => b"less",
        Ordering::Equal => b"equal",
        Ordering::Greater => b"greater",
    }
}

/// `order X Y => ORDER ORDER`, that of X and Y and that of Y and X
pub fn answer_order(words: &mut Words, out: &mut Shown) -> Result<(), CaseFault> {
    let x = near_position(words)?;
    let y = near_position(words)?;
    out.put(order_word(x.cmp(&y)));
    out.put_byte(b' ');
    out.put(order_word(y.cmp(&x)));
    Ok(())
}

/// The position that a word is, in its one spelling and in range.
fn ranged(words: &mut Words, word: &[u8]) -> Result<RangedPos, CaseFault> {
    let position = spelled(position(words, word))?;
    if position.is_in_range() {
        Ok(RangedPos::new(position))
    } else {
        Err(CaseFault::Number)
    }
}

fn all_ranged(alloc: Global, words: &mut Words) -> Result<Vec<RangedPos>, CaseFault> {
    let mut places = Vec::new(alloc);
    for word in words_of(alloc, words.all())? {
        places.push(ranged(words, word)?)?;
    }
    Ok(places)
}

fn sign_between(low: &RangedPos, high: &RangedPos) -> &'static [u8] {
    if low == high {
        b" = "
    } else if low < high {
        b" < "
    } else {
        b" > "
    }
}

/// `sort X Y Z .. => X < Y = Z ..`, the positions as std's sort leaves them, with how each compares with the next
pub fn answer_sort(alloc: Global, words: &mut Words, out: &mut Shown) -> Result<(), CaseFault> {
    let mut places = all_ranged(alloc, words)?;
    places.sort()?;
    let mut last: Option<&RangedPos> = None;
    for place in &places {
        if let Some(low) = last {
            out.put(sign_between(low, place));
        }
        put_position(&place.place(), out);
        last = Some(place);
    }
    Ok(())
}

/// `distinct X Y Z .. => N`, how many keys a map of the positions has
pub fn answer_distinct(alloc: Global, words: &mut Words, out: &mut Shown) -> Result<(), CaseFault> {
    let mut seen = BTreeMap::new(alloc);
    for place in all_ranged(alloc, words)? {
        seen.insert(place, ())?;
    }
    out.put_number(seen.len());
    Ok(())
}
