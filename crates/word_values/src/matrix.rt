//! The placement that a matrix is.
ghost use Rattle.std.specs.Prelude.{◌≡◌, ◌↔◌, IfSome, IsSome};
ghost use Rattle.lattice_core.specs.declared.limit.TheConstants.{COORD};
ghost use Rattle.lattice_core.specs.Limits.{IsWithin};
ghost use Rattle.lattice_core.specs.Placements.{matrix_of};
ghost use Rattle.word_values.specs.Matrices as matrices;

use lattice_core::{Placement, of_matrix};

/// The placement that sixteen numbers, given row by row, are the matrix of, where the components of its shift are at
/// most `COORD` in size, in tenths of a millimetre.
pub fn placement_of(numbers: &[i64; 16]) -> Option<Placement>
    ensures exact { result ≡ matrices.placement_in numbers.now }
    ensures matrix { IfSome result (λ p. numbers.now ≡ matrix_of p) }
    ensures near { IfSome result (λ p. IsWithin COORD p.shift) }
    ensures some { IsSome result ↔ matrices.IsNearMatrix numbers.now }
{
    of_matrix(numbers).ok()
}
