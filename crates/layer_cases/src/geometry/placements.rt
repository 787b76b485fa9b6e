//! Rows of turns, placements and matrices.

use crate::geometry::shown::put_point;
use crate::geometry::words::Words;
use case_text::Shown;
use lattice_core::{COORD, MatrixFault, Placement, Turn, WORLD, compose, of_matrix};

/// The greatest size of a number of a matrix that is read.
const ENTRY: i64 = 1 << 40;

/// Puts in the numbers of a matrix, row by row.
fn put_matrix(matrix: [i64; 16], out: &mut Shown) {
    let mut is_first = true;
    for entry in matrix {
        if !is_first {
            out.put_byte(b' ');
        }
        is_first = false;
        out.put_number(entry);
    }
}

/// `turn N X,Y,Z => X,Y,Z`, or `none` where there is no turn of this number
pub fn answer_turn(words: &mut Words, out: &mut Shown) {
    let turn = Turn::of_number(words.byte());
    let v = words.point(COORD);
    match turn {
        Some(turn) => put_point(turn.apply(v), out),
        None => out.put(b"none"),
    }
}

/// `identity => MATRIX`
pub fn answer_identity(out: &mut Shown) {
    put_matrix(Placement::identity().matrix(), out);
}

/// `place PLACEMENT X,Y,Z => X,Y,Z`
pub fn answer_place(words: &mut Words, out: &mut Shown) {
    let placement = words.placement();
    let p = words.point(WORLD);
    put_point(placement.place(p), out);
}

/// `compose UPPER LOWER => MATRIX`, of the placement that applies the lower one first
pub fn answer_compose(words: &mut Words, out: &mut Shown) {
    let upper = words.placement();
    let lower = words.placement();
    put_matrix(compose(upper, lower).matrix(), out);
}

/// The numbers of a matrix, row by row.
fn matrix(words: &mut Words) -> [i64; 16] {
    let mut matrix = [0; 16];
    for entry in &mut matrix {
        *entry = words.whole(ENTRY);
    }
    matrix
}

/// `matrix MATRIX => MATRIX`, of the placement that it is, or `not lattice` or `too far`
pub fn answer_matrix(words: &mut Words, out: &mut Shown) {
    match of_matrix(&matrix(words)) {
        Ok(placement) => put_matrix(placement.matrix(), out),
        Err(MatrixFault::NotLattice) => out.put(b"not lattice"),
        Err(MatrixFault::TooFar) => out.put(b"too far"),
    }
}
