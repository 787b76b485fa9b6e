//! The words of a row: numbers, points, directions, turns, placements and rays, within the limits of the calls that take
//! them.

ghost use Rattle.std.specs.Prelude.{◌≤ℤ◌, pos, IfOk};
ghost use Rattle.lattice_core.specs.declared.limit.TheConstants.{SHIFT, WORLD};
ghost use Rattle.lattice_core.specs.Limits.{IsAtMost, IsWithin};
ghost use Rattle.slant_ray.specs.Rays.{IsSlantRay};

use case_text::{CaseFault, first_word};
use lattice_core::{Dir, Placement, Ray, SHIFT, Turn, V3, WORLD};
use slant_ray::{STEP, SlantRay};

/// The words of a row that are still to be read, and the first fault of those that were read. Where a word has a fault
/// something is answered in its place, and what the row answers then doesn't count.
#[derive(Drop)]
pub struct Words<'a> {
    rest: &'a [u8],
    fault: Option<CaseFault>,
}

impl<'a> Words<'a> {
    /// The words of a text that are parted by single blanks.
    pub fn of(text: &'a [u8]) -> Words<'a> {
        Words {
            rest: text,
            fault: None,
        }
    }

    /// Notes a fault.
    pub fn refuse(&mut self, fault: CaseFault) {
        if self.fault.is_none() {
            self.fault = Some(fault);
        }
    }

    /// The next word, which is empty where there is none.
    pub fn next(&mut self) -> &'a [u8] {
        let (word, others) = first_word(self.rest);
        self.rest = others;
        word
    }

    /// All that is still to be read.
    pub fn all(&mut self) -> &'a [u8] {
        let rest = self.rest;
        self.rest = &rest[rest.len()..];
        rest
    }

    /// The first fault, or that there are words that no one read.
    pub fn end(&self) -> Result<(), CaseFault> {
        match self.fault {
            Some(fault) => Err(fault),
            None if self.rest.is_empty() => Ok(()),
            None => Err(CaseFault::Line),
        }
    }

    /// Reads a word that stands between others.
    pub fn skip(&mut self, wanted: &[u8]) {
        if self.next() != wanted {
            self.refuse(CaseFault::Line);
        }
    }

    /// The number of at most 128 bits that is next.
    pub fn number(&mut self) -> i128 {
        let word = self.next();
        self.number_in(word)
    }

    /// The number of at most 128 bits that a word is.
    pub fn number_in(&mut self, word: &[u8]) -> i128 {
        match number(word) {
            Ok(number) => number,
            Err(fault) => {
                self.refuse(fault);
                0
            }
        }
    }

    /// The number of 0 or more that is next.
    pub fn natural(&mut self) -> u128 {
        match natural(self.next()) {
            Ok(number) => number,
            Err(fault) => {
                self.refuse(fault);
                0
            }
        }
    }

    /// The number of 8 bits that is next.
    pub fn byte(&mut self) -> u8 {
        match u8::try_from(self.number()) {
            Ok(number) => number,
            Err(_) => {
                self.refuse(CaseFault::Number);
                0
            }
        }
    }

    /// A whole number that is at most so large in size.
    pub fn whole(&mut self, limit: i64) -> i64
        requires { pos 0 ≤ℤ limit }
        ensures { IsAtMost limit result }
    {
        let word = self.next();
        self.whole_in(word, limit)
    }

    /// The whole number of at most so large a size that a word is.
    pub fn whole_in(&mut self, word: &[u8], limit: i64) -> i64
        requires { pos 0 ≤ℤ limit }
        ensures { IsAtMost limit result }
    {
        match whole_within(word, limit) {
            Ok(number) => number,
            Err(fault) => {
                self.refuse(fault);
                0
            }
        }
    }

    /// A point `X,Y,Z` of which the coordinates are at most so large in size.
    pub fn point(&mut self, limit: i64) -> V3
        requires { pos 0 ≤ℤ limit }
        ensures { IsWithin limit result }
    {
        let word = self.next();
        self.point_in(word, limit)
    }

    /// The point `X,Y,Z` that a word is.
    pub fn point_in(&mut self, word: &[u8], limit: i64) -> V3
        requires { pos 0 ≤ℤ limit }
        ensures { IsWithin limit result }
    {
        let (x, others) = self.halves(word, b',');
        let (y, z) = self.halves(others, b',');
        let x = self.whole_in(x, limit);
        let y = self.whole_in(y, limit);
        let z = self.whole_in(z, limit);
        V3 { x, y, z }
    }

    /// What stands in a word before the first such byte, and what follows it.
    pub fn halves<'b>(&mut self, word: &'b [u8], at: u8) -> (&'b [u8], &'b [u8]) {
        match parted(word, at) {
            Some(halves) => halves,
            None => {
                self.refuse(CaseFault::Number);
                (word, word)
            }
        }
    }

    /// A ray: its origin `X,Y,Z` and its direction.
    pub fn ray(&mut self) -> Ray
        ensures { IsWithin WORLD result.origin }
    {
        let origin = self.point(WORLD);
        let dir = self.direction();
        Ray { origin, dir }
    }

    /// A ray in a lattice direction: its origin `X,Y,Z` and the vector `X,Y,Z` along which it goes.
    pub fn slant_ray(&mut self) -> Result<SlantRay, CaseFault>
        ensures { IfOk result IsSlantRay }
    {
        let origin = self.point(WORLD);
        let step = self.point(STEP);
        if step.is_zero() {
            return Err(CaseFault::Number);
        }
        Ok(SlantRay {
            origin,
            x: step.x as i8,
            y: step.y as i8,
            z: step.z as i8,
        })
    }

    /// The direction that is next: `+x`, `-x`, `+y`, `-y`, `+z` or `-z`.
    fn direction(&mut self) -> Dir {
        match self.next() {
            b"+x" => Dir::PlusX,
            b"-x" => Dir::MinusX,
            b"+y" => Dir::PlusY,
            b"-y" => Dir::MinusY,
            b"+z" => Dir::PlusZ,
            b"-z" => Dir::MinusZ,
            _ => {
                self.refuse(CaseFault::Line);
                Dir::PlusX
            }
        }
    }

    /// A placement: the number of its turn, and its shift `X,Y,Z`.
    pub fn placement(&mut self) -> Placement
        ensures { IsWithin SHIFT result.shift }
    {
        let turn = self.turn();
        let shift = self.point(SHIFT);
        Placement { turn, shift }
    }

    /// The turn of a number.
    fn turn(&mut self) -> Turn {
        match Turn::of_number(self.byte()) {
            Some(turn) => turn,
            None => {
                self.refuse(CaseFault::Number);
                Placement::identity().turn
            }
        }
    }
}

/// What stands before the first such byte, and what follows it; None where it isn't there.
pub fn parted(text: &[u8], at: u8) -> Option<(&[u8], &[u8])> {
    let end = text.iter().position(|byte| *byte == at)?;
    Some((&text[..end], &text[end + 1..]))
}

/// The number of at most 128 bits that a word is.
fn number(word: &[u8]) -> Result<i128, CaseFault> {
    let Ok(digits) = str::from_utf8(word) else {
        return Err(CaseFault::Number);
    };
    let Ok(number) = digits.parse::<i128>() else {
        return Err(CaseFault::Number);
    };
    Ok(number)
}

/// The number of 0 or more that a word is.
fn natural(word: &[u8]) -> Result<u128, CaseFault> {
    let Ok(digits) = str::from_utf8(word) else {
        return Err(CaseFault::Number);
    };
    let Ok(number) = digits.parse::<u128>() else {
        return Err(CaseFault::Number);
    };
    Ok(number)
}

/// The number that a word is, of at most so large a size.
pub fn whole_within(word: &[u8], limit: i64) -> Result<i64, CaseFault>
    requires { pos 0 ≤ℤ limit }
    ensures { IfOk result (IsAtMost limit) }
{
    let Ok(number) = i64::try_from(number(word)?) else {
        return Err(CaseFault::Number);
    };
    if number < -limit || limit < number {
        return Err(CaseFault::Number);
    }
    Ok(number)
}
