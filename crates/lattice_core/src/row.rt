//! One row of a signed permutation.

ghost use Rattle.std.specs.Prelude.{◌≡◌, ◌≢◌, ◌≤◌, IfSome, IfNone};
ghost use Rattle.lattice_core.specs.declared.limit.TheConstants.{WIDE};
ghost use Rattle.lattice_core.specs.Limits.{IsBelow, IsUnder};
ghost use Rattle.lattice_core.specs.Rows.{picked, signed_by, row_times, row_entry, row_vector, IsPlace};

use crate::vector::V3;

/// A row of a signed permutation: the column of its one entry, counted from 1, and whether that entry is -1.
#[derive(Clone, Copy, PartialEq, Eq)]
pub struct Row {
    pub column: u8,
    pub negated: bool,
}

fn signed(negated: bool, component: i64) -> i64
    requires { IsUnder WIDE component }
    ensures { result ≡ signed_by negated component }
{
    if negated { -component } else { component }
}

fn component(v: V3, column: u8) -> i64
    requires column { IsPlace column }
    requires below { IsBelow WIDE v }
    ensures value { result ≡ picked column v }
    ensures below { IsUnder WIDE result }
{
    match column {
        1 => v.x,
        2 => v.y,
        _ => v.z,
    }
}

impl Row {
    /// The row times a vector.
    pub fn times(&self, v: V3) -> i64
        requires column { IsPlace self.now.column }
        requires below { IsBelow WIDE v }
        ensures { result ≡ row_times self.now v }
    {
        signed(self.negated, component(v, self.column))
    }

    /// The entry in a column, counted from 1.
    pub fn entry(&self, column: u8) -> i64
        ensures { result ≡ row_entry self.now column }
    {
        match (self.column == column, self.negated) {
            (false, _) => 0,
            (true, false) => 1,
            (true, true) => -1,
        }
    }

    /// The row with these entries, or `None` where there is none.
    pub fn of_entries(entries: V3) -> Option<Row>
        ensures some { IfSome result (λ row. IsPlace row.column × (row_vector row ≡ entries)) }
        ensures none { IfNone result ((row : Row) → IsPlace row.column → row_vector row ≢ entries) }
    {
        let V3 { x, y, z } = entries;
        let (column, negated) = match (x, y, z) {
            (1, 0, 0) => (1, false),
            (-1, 0, 0) => (1, true),
            (0, 1, 0) => (2, false),
            (0, -1, 0) => (2, true),
            (0, 0, 1) => (3, false),
            (0, 0, -1) => (3, true),
            _ => return None,
        };
        Some(Row { column, negated })
    }
}
