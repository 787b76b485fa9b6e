//! The words of a text that are atoms, and how they are read as numbers.
ghost use Rattle.std.specs.Prelude.{All, ◌≡◌, ◌≤◌, Some, codes, length, map, vec_len, IfOk, IfSome};
ghost use Rattle.std.specs.Option.{option_map};
ghost use Rattle.std.specs.Int.RustNames.{unsigned_abs};
ghost use Rattle.tcl_words.specs.TopWords.{AreTokensIn, IsWordOf};
ghost use Rattle.word_values.specs.Atoms as atoms;
ghost use Rattle.tcl_words.specs.Numbers.{tenths_of};
ghost use Rattle.lattice_core.specs.declared.limit.TheConstants.{MILLIMETRE, VIEW_NUMBER};
ghost use Rattle.word_values.specs.Kinds as kinds;
ghost use Rattle.word_values.specs.declared.atoms.TheConstants.{WHOLE_NUMBER};

use crate::solid::SolidKind;
use lattice_core::{COORD, HALF_NORMAL, VIEW_NUMBER};
use memory_core::Memory;
use std::alloc::Global;
use tcl_words::{Token, Word, atom_text, inside, read_number, read_tenths, top_words};

/// The greatest whole number of nine digits.
pub const WHOLE_NUMBER: u64 = 999_999_999;

/// The limit is this number, and lengths are read in the unit in which the limits of a model are told: a millimetre is
/// `MILLIMETRE`, and the longest of nine digits and a tenth is `VIEW_NUMBER`. This law is what refuses other constants.
pub fn limit_laws()
    ensures whole { WHOLE_NUMBER ≡ 999999999 }
    ensures millimetre { tenths_of (codes "1") ≡ Some MILLIMETRE }
    ensures longest { tenths_of (codes "999999999.9") ≡ Some VIEW_NUMBER }
{}

/// How an atom is read as a number.
#[derive(Clone, Copy, Debug, PartialEq, Eq)]
pub enum NumberKind {
    /// A whole number of at most this size.
    Whole(u64),
    /// A length of at most this size, in tenths of a millimetre.
    Length(u64),
}

impl NumberKind {
    ghost use Rattle.std.specs.Prelude.{◌≡◌, ◌≤◌, IfSome};
    ghost use Rattle.std.specs.Int.RustNames.{unsigned_abs};
    ghost use Rattle.word_values.specs.Kinds as kinds;

    /// The number that an atom spells, where it is one of this kind.
    pub fn read(self, atom: &[u8]) -> Option<i64>
        ensures value { result ≡ kinds.number_as self atom.now }
        ensures within { IfSome result (λ n. unsigned_abs n ≤ kinds.most_of self) }
    {
        match self {
            NumberKind::Whole(most) => kept_to(most, read_number(atom)),
            NumberKind::Length(most) => kept_to(most, read_tenths(atom)),
        }
    }
}

/// Which numbers stand in a list, place by place.
#[derive(Clone, Copy, Debug, PartialEq, Eq)]
pub enum NumberList {
    /// The numbers of a solid: a normal has whole numbers, and all others are lengths.
    Solid(SolidKind),
    /// The coordinates of a ray's origin or of a view's corner.
    Point,
    /// A matrix, row by row: the fourth column has lengths, and all others are whole numbers.
    Matrix,
}

impl NumberList {
    ghost use Rattle.std.specs.Prelude.{◌≡◌};
    ghost use Rattle.word_values.specs.Kinds as kinds;

    /// The kind of the number at a place, counted from 0.
    pub fn kind_at(self, place: usize) -> NumberKind
        ensures { result ≡ kinds.kind_at self place }
    {
        match self {
            NumberList::Solid(kind) => solid_kind_at(kind, place),
            NumberList::Point => point_kind(),
            NumberList::Matrix => matrix_kind_at(place),
        }
    }
}

/// The kind of a coordinate, a radius, or the distance of a half-space.
pub fn coordinate_kind() -> NumberKind
    ensures { result ≡ kinds.coordinate_kind }
{
    NumberKind::Length(COORD.unsigned_abs())
}

/// The kind of a component of a half-space's normal.
pub fn normal_kind() -> NumberKind
    ensures { result ≡ kinds.normal_kind }
{
    NumberKind::Whole(HALF_NORMAL.unsigned_abs())
}

/// The kind of a coordinate of a ray's origin or of a view's corner, of a view's cell, and of a component of a matrix's
/// shift.
pub fn point_kind() -> NumberKind
    ensures { result ≡ kinds.point_kind }
{
    NumberKind::Length(VIEW_NUMBER.unsigned_abs())
}

/// The kind of any other number.
pub fn plain_kind() -> NumberKind
    ensures { result ≡ kinds.plain_kind }
{
    NumberKind::Whole(WHOLE_NUMBER)
}

fn solid_kind_at(kind: SolidKind, place: usize) -> NumberKind
    ensures { result ≡ kinds.solid_kind_at kind place }
{
    match kind {
        SolidKind::Half if place < 3 => normal_kind(),
        _ => coordinate_kind(),
    }
}

fn matrix_kind_at(place: usize) -> NumberKind
    ensures { result ≡ kinds.kind_at NumberList.Matrix place }
{
    if place == 3 || place == 7 || place == 11 {
        point_kind()
    } else {
        plain_kind()
    }
}

/// The number, where it is at most this size.
fn kept_to(most: u64, number: Option<i64>) -> Option<i64>
    ensures kept { result ≡ atoms.kept_to most number }
    ensures within { IfSome result (λ n. unsigned_abs n ≤ most) }
{
    let number = number?;
    if number.unsigned_abs() <= most {
        Some(number)
    } else {
        None
    }
}

/// The atoms that words are, or none where one is a group that counts as no atom.
pub fn word_atoms<'a>(
    alloc: Global,
    text: &'a [u8],
    tokens: &[Token],
    words: &[Word],
) -> Result<Option<Vec<&'a [u8]>>, Memory>
    requires tokens { AreTokensIn (length text.now) tokens.now }
    requires words { All (IsWordOf tokens.now) words.now }
    ensures few { IfOk result (λ found. IfSome found (λ atoms. vec_len atoms ≡ length words.now)) }
    ensures atoms { IfOk result (λ found. option_map (λ atoms. map (λ a. a.now) atoms.items) found ≡ atoms.atoms_in text.now tokens.now words.now) }
{
    let mut atoms = Vec::with_capacity(alloc, words.len())?;
    for word in words {
        let Some(atom) = atom_text(text, tokens, *word) else {
            return Ok(None);
        };
        atoms.push(atom)?;
    }
    Ok(Some(atoms))
}

/// The atoms that the words in a group are, or none where the word is no group or one of them no atom.
pub fn group_atoms<'a>(
    alloc: Global,
    text: &'a [u8],
    tokens: &[Token],
    word: Word,
) -> Result<Option<Vec<&'a [u8]>>, Memory>
    requires tokens { AreTokensIn (length text.now) tokens.now }
    requires word { IsWordOf tokens.now word }
    ensures { IfOk result (λ found. option_map (λ atoms. map (λ a. a.now) atoms.items) found ≡ atoms.words_in text.now tokens.now word) }
{
    if word.first == word.last {
        return Ok(None);
    }
    let inner = inside(tokens, word);
    let words = top_words(alloc, inner)?;
    word_atoms(alloc, text, inner, &words)
}
