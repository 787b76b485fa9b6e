//! Rows of quotient positions on a ray.

ghost use Rattle.std.specs.Prelude.{IfOk};
ghost use Rattle.surd_quot.specs.Range.{IsQuotientInRange};

use crate::geometry::positions::{WHOLE, order_word, position};
use crate::geometry::words::{Words, parted};
use case_text::{CaseFault, Shown};
use surd_order::Pos;
use surd_quot::{GREATEST_DIVISOR, QPos, QPosText};

/// Puts in the text of a quotient position.
fn put_quotient(quotient: &QPos, out: &mut Shown) {
    let mut text = QPosText::new();
    quotient.write_text(&mut text);
    out.put(text.bytes());
}

/// A position divided by a number, which is 1 for a fraction.
fn over(words: &mut Words, dividend: Pos, divisor: i128) -> QPos {
    match (dividend, u8::try_from(divisor)) {
        (Pos::Frac { p, q }, Ok(1)) => QPos::Frac { p, q },
        (Pos::Surd { a, plus, k }, Ok(q)) => QPos::Quot { a, plus, k, q },
        _ => {
            words.refuse(CaseFault::Number);
            QPos::Frac { p: 0, q: 1 }
        }
    }
}

/// The quotient position that a word is: a position, or `(A+sqrt(K))/Q` or `(A-sqrt(K))/Q`, in no matter what spelling.
fn quotient(words: &mut Words, word: &[u8]) -> QPos {
    let [b'(', inner @ ..] = word else {
        let dividend = position(words, word);
        return over(words, dividend, 1);
    };
    let (dividend, divisor) = words.halves(inner, b'/');
    let [dividend @ .., b')'] = dividend else {
        words.refuse(CaseFault::Number);
        return QPos::Frac { p: 0, q: 1 };
    };
    let dividend = position(words, dividend);
    let divisor = words.number_in(divisor);
    over(words, dividend, divisor)
}

/// The quotient position in its one spelling.
fn spelled(quotient: QPos) -> Result<QPos, CaseFault> {
    match quotient {
        QPos::Frac { p, q } => {
            if q == 0 || q == i128::MIN || p == i128::MIN {
                return Err(CaseFault::Number);
            }
            Ok(QPos::frac(p, q))
        }
        QPos::Quot { a, plus, k, q } => {
            if a.unsigned_abs() >= WHOLE || q == 0 || GREATEST_DIVISOR < q {
                return Err(CaseFault::Number);
            }
            Ok(QPos::quot(a, plus, k, q))
        }
    }
}

/// `quotient X => X`, in its one spelling
pub fn answer_quotient(words: &mut Words, out: &mut Shown) -> Result<(), CaseFault> {
    let word = words.next();
    let quotient = quotient(words, word);
    put_quotient(&spelled(quotient)?, out);
    Ok(())
}

/// `quotient_text X => TEXT`, of the numbers as they stand
pub fn answer_quotient_text(words: &mut Words, out: &mut Shown) {
    let word = words.next();
    put_quotient(&quotient(words, word), out);
}

/// The quotient position that a word is, which is to be in range.
fn near_quotient(words: &mut Words) -> Result<QPos, CaseFault>
    ensures { IfOk result IsQuotientInRange }
{
    let word = words.next();
    let quotient = quotient(words, word);
    if quotient.is_in_range() {
        Ok(quotient)
    } else {
        Err(CaseFault::Number)
    }
}

/// `quotient_order X Y => ORDER ORDER`, that of X and Y and that of Y and X
pub fn answer_quotient_order(words: &mut Words, out: &mut Shown) -> Result<(), CaseFault> {
    let x = near_quotient(words)?;
    let y = near_quotient(words)?;
    out.put(order_word(x.cmp(&y)));
    out.put_byte(b' ');
    out.put(order_word(y.cmp(&x)));
    Ok(())
}
