//! Placements, a turn followed by a shift, and the matrices that they are written as.

ghost use Rattle.std.specs.Prelude.{◌≡◌, ◌↔◌, pos, ◌≤ℤ◌, ◌≤◌, IfOk, IsTrue, Result, Err};
ghost use Rattle.lattice_core.specs.declared.vector.V3.{V3};
ghost use Rattle.lattice_core.specs.Limits.{IsAtMost, IsWithin, IsBelow};
ghost use Rattle.lattice_core.specs.Vectors.{zero_vector};
ghost use Rattle.lattice_core.specs.Matrices.{HasLastRow, numbers_at, fourth_column};
ghost use Rattle.lattice_core.specs.Placements.{placed, matrix_of, IsPlacementMatrix, IsFarMatrix, IsComposed};

use crate::limit::{COORD, REACH};
use crate::turn::Turn;
use crate::vector::V3;
use thiserror::Error;

/// A turn, followed by a shift in tenths of a millimetre.
#[derive(Clone, Copy, Debug, PartialEq, Eq, Hash)]
pub struct Placement {
    pub turn: Turn,
    pub shift: V3,
}

/// Why a matrix is no placement. The first that holds is answered.
#[derive(Clone, Copy, Debug, PartialEq, Eq, Error)]
pub enum MatrixFault {
    /// It is no signed permutation of the axes with a shift.
    #[error("not a signed permutation of the axes with a shift")]
    NotLattice,
    /// A component of its shift is over `COORD` in size.
    #[error("shift too far")]
    TooFar,
}

/// The placement that applies `lower` first and then `upper`.
pub fn compose(upper: Placement, lower: Placement) -> Placement
    requires upper { IsBelow REACH upper.shift }
    requires lower { IsBelow REACH lower.shift }
    ensures { IsComposed result upper lower }
{
    Placement {
        turn: upper.turn.after(&lower.turn),
        shift: upper.place(lower.shift),
    }
}

/// The placement of a 4 by 4 matrix, given row by row.
pub fn of_matrix(m: &[i64; 16]) -> Result<Placement, MatrixFault>
    ensures value { IfOk result (λ p. (m.now ≡ matrix_of p) × IsWithin COORD p.shift) }
    ensures not_lattice { (result ≡ Err MatrixFault.NotLattice) ↔ (¬ IsPlacementMatrix m.now) }
    ensures too_far { (result ≡ Err MatrixFault.TooFar) ↔ IsFarMatrix COORD m.now }
{
    if !has_last_row(m) {
        return Err(MatrixFault::NotLattice);
    }
    let Some(turn) = Turn::of_entries(vector_at(m, 0), vector_at(m, 4), vector_at(m, 8)) else {
        return Err(MatrixFault::NotLattice);
    };
    let shift = shift_in(m);
    if shift.is_within(COORD) {
        Ok(Placement { turn, shift })
    } else {
        Err(MatrixFault::TooFar)
    }
}

fn has_last_row(m: &[i64; 16]) -> bool
    ensures { IsTrue result ↔ HasLastRow m.now }
{
    m[12] == 0 && m[13] == 0 && m[14] == 0 && m[15] == 1
}

/// The first three numbers of a row that begins at a place.
fn vector_at(m: &[i64; 16], at: usize) -> V3
    requires { at ≤ 12 }
    ensures { result ≡ numbers_at m.now at }
{
    V3 {
        x: m[at],
        y: m[at + 1],
        z: m[at + 2],
    }
}

fn shift_in(m: &[i64; 16]) -> V3
    ensures { result ≡ fourth_column m.now }
{
    V3 {
        x: m[3],
        y: m[7],
        z: m[11],
    }
}

impl Placement {
    /// The placement that moves nothing.
    pub fn identity() -> Placement
        ensures turn { result.turn.number ≡ 0 }
        ensures shift { result.shift ≡ zero_vector }
        ensures value { (p : V3) → placed result p ≡ p }
    {
        Placement {
            turn: Turn::identity(),
            shift: V3 { x: 0, y: 0, z: 0 },
        }
    }

    /// The point that a point goes to.
    pub fn place(&self, p: V3) -> V3
        requires point { IsBelow REACH p }
        requires shift { IsBelow REACH self.now.shift }
        ensures { result ≡ placed self.now p }
    {
        self.turn.apply(p).plus(self.shift)
    }

    /// The 4 by 4 matrix, row by row. Its fourth column has the shift, and its last row is 0 0 0 1.
    pub fn matrix(&self) -> [i64; 16]
        ensures { result ≡ matrix_of self.now }
    {
        let Placement { turn, shift } = *self;
        [
            turn.entry(1, 1),
            turn.entry(1, 2),
            turn.entry(1, 3),
            shift.x,
            turn.entry(2, 1),
            turn.entry(2, 2),
            turn.entry(2, 3),
            shift.y,
            turn.entry(3, 1),
            turn.entry(3, 2),
            turn.entry(3, 3),
            shift.z,
            0,
            0,
            0,
            1,
        ]
    }
}
