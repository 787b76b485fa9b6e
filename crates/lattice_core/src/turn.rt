//! The 48 turns, the signed permutations of the axes.

ghost use Rattle.std.specs.Prelude.{◌≡◌, ◌<◌, ◌≤◌, ◌↔◌, Option, IfSome, IfNone, IsNone, IsTrue, pos, ℕ, ℤ};
ghost use Rattle.lattice_core.specs.declared.limit.TheConstants.{WIDE};
ghost use Rattle.lattice_core.specs.Limits.{IsBelow};
ghost use Rattle.lattice_core.specs.Turns.{column_of, is_negated, column_in, is_negated_in, entry_of, turned};
ghost use Rattle.lattice_core.specs.declared.vector.V3.{V3};
ghost use Rattle.lattice_core.specs.Rows.{IsPlace, AreColumns, IsRowOf, IsRowAfter, HasEntries};

use crate::row::Row;
use crate::vector::V3;

/// For each permutation, the columns of the one entry of the rows.
static COLUMNS: [[u8; 3]; 6] = [
    [1, 2, 3],
    [1, 3, 2],
    [2, 1, 3],
    [2, 3, 1],
    [3, 1, 2],
    [3, 2, 1],
];

/// A signed permutation of the axes, one of 48.
#[derive(Clone, Copy, Debug, PartialEq, Eq, Hash)]
pub struct Turn {
    number: u8,
    pub ghost in_range: { number < 48 },
}

/// The number of the permutation with these columns.
fn permutation_of(first: u8, second: u8, third: u8) -> u8
    requires { AreColumns first second third }
    ensures in_range { result < 6 }
    ensures first { column_in result 1 ≡ first }
    ensures second { column_in result 2 ≡ second }
    ensures third { column_in result 3 ≡ third }
{
    match (first, second) {
        (1, 2) => 0,
        (1, _) => 1,
        (2, 1) => 2,
        (2, _) => 3,
        (_, 1) => 4,
        _ => 5,
    }
}

fn are_apart(first: u8, second: u8, third: u8) -> bool
    requires first { IsPlace first }
    requires second { IsPlace second }
    requires third { IsPlace third }
    ensures { IsTrue result ↔ AreColumns first second third }
{
    first != second && first != third && second != third
}

/// The number whose bits, from the lowest, are these.
fn signs_of(first: bool, second: bool, third: bool) -> u8
    ensures in_range { result < 8 }
    ensures first { is_negated_in result 1 ≡ first }
    ensures second { is_negated_in result 2 ≡ second }
    ensures third { is_negated_in result 3 ≡ third }
{
    u8::from(first) + 2 * u8::from(second) + 4 * u8::from(third)
}

impl Turn {
    /// The turn of this number, or `None` where there is none.
    pub fn of_number(t: u8) -> Option<Turn>
        ensures value { IfSome result (λ turn. turn.number ≡ t) }
        ensures none { IsNone result ↔ (48 ≤ t) }
    {
        if t < 48 {
            Some(Turn { number: t })
        } else {
            None
        }
    }

    /// The turn that moves nothing.
    pub fn identity() -> Turn
        ensures number { result.number ≡ 0 }
        ensures value { (v : V3) → turned result.number v ≡ v }
    {
        Turn { number: 0 }
    }

    /// The signed permutation of a vector, without a shift.
    pub fn apply(&self, v: V3) -> V3
        requires { IsBelow WIDE v }
        ensures value { result ≡ turned self.now.number v }
        ensures size { (limit : ℤ) → IsBelow limit v → IsBelow limit result }
    {
        V3 {
            x: self.row(1).times(v),
            y: self.row(2).times(v),
            z: self.row(3).times(v),
        }
    }

    /// The row at a place, counted from 1.
    fn row(&self, place: u8) -> Row
        requires { IsPlace place }
        ensures row { IsRowOf self.now.number place result }
        ensures column { IsPlace result.column }
    {
        Row {
            column: self.column(place),
            negated: self.is_negated(place),
        }
    }

    fn column(&self, place: u8) -> u8
        requires { IsPlace place }
        ensures value { result ≡ column_of self.now.number place }
        ensures column { IsPlace result }
    {
        COLUMNS[usize::from(self.number / 8)][usize::from(place - 1)]
    }

    fn is_negated(&self, place: u8) -> bool
        requires { IsPlace place }
        ensures { result ≡ is_negated self.now.number place }
    {
        self.number % 8 / (1 << (place - 1)) % 2 == 1
    }

    /// The turn with these rows.
    fn of_rows(first: Row, second: Row, third: Row) -> Turn
        requires { AreColumns first.column second.column third.column }
        ensures first { IsRowOf result.number 1 first }
        ensures second { IsRowOf result.number 2 second }
        ensures third { IsRowOf result.number 3 third }
    {
        let permutation = permutation_of(first.column, second.column, third.column);
        let signs = signs_of(first.negated, second.negated, third.negated);
        Turn {
            number: 8 * permutation + signs,
        }
    }

    /// The entry in a row and a column of the matrix, both counted from 1.
    pub fn entry(&self, place: u8, column: u8) -> i64
        requires { IsPlace place }
        ensures { result ≡ entry_of self.now.number place column }
    {
        self.row(place).entry(column)
    }

    /// The turn that applies `lower` first and then this one.
    pub fn after(&self, lower: &Turn) -> Turn
        ensures { (v : V3) → turned result.number v ≡ turned self.now.number (turned lower.now.number v) }
    {
        Turn::of_rows(
            self.row_after(1, lower),
            self.row_after(2, lower),
            self.row_after(3, lower),
        )
    }

    fn row_after(&self, place: u8, lower: &Turn) -> Row
        requires { IsPlace place }
        ensures row { IsRowAfter self.now.number lower.now.number place result }
        ensures column { IsPlace result.column }
    {
        let row = self.row(place);
        let below = lower.row(row.column);
        Row {
            column: below.column,
            negated: row.negated != below.negated,
        }
    }

    /// The turn with these rows of its matrix, or `None` where there is none.
    pub fn of_entries(first: V3, second: V3, third: V3) -> Option<Turn>
        ensures some { IfSome result (λ turn. HasEntries first second third turn.number) }
        ensures none { IfNone result ((turn : ℕ) → turn < 48 → ¬ HasEntries first second third turn) }
    {
        let Some(first) = Row::of_entries(first) else {
            return None;
        };
        let Some(second) = Row::of_entries(second) else {
            return None;
        };
        let Some(third) = Row::of_entries(third) else {
            return None;
        };
        if are_apart(first.column, second.column, third.column) {
            Some(Turn::of_rows(first, second, third))
        } else {
            None
        }
    }
}
