//! Reads the commands that shoot each ray of a view.
ghost use Rattle.std.specs.Prelude.{◌≡◌, ◌+◌, ◌<◌, ◌^◌, ◌∷◌, [], None, Some, length, map, pos, IfErr, IfOk};
ghost use Rattle.lattice_core.specs.declared.limit.TheConstants.{VIEW_NUMBER};
ghost use Rattle.lattice_core.specs.Limits.{IsAtMost, IsWithin};
ghost use Rattle.mged_words.specs.Commands as commands;
ghost use Rattle.mged_words.specs.Readings.{IsRead, six_numbers, view_read, view_unless_fault};

use crate::atoms::read_numbers;
use crate::fault::LineFault;
use crate::names::{read_name, read_names};
use crate::shot::direction;
use command_set::{CheckedView, Command, NameList, Refusal, Shoot};
use lattice_core::{Dir, View};
use name_core::Name;
use std::alloc::Global;
use word_values::{NumberList, plain_kind, point_kind, vector_at};

/// The cell of a view in tenths of a millimetre, and how many columns and rows it has.
#[derive(Clone, Copy)]
struct Sizes {
    cell: i64,
    w: u32,
    h: u32,
}

/// Reads the cell of a view, the word of this number.
fn read_cell(atom: &[u8], word: u32) -> Result<i64, Refusal>
    ensures cell { IfOk result (λ cell. commands.cell_number atom.now ≡ Some cell) }
    ensures within { IfOk result (λ cell. IsAtMost VIEW_NUMBER cell) }
    ensures none { IfErr result (λ _. commands.cell_number atom.now ≡ None) }
    ensures fault { IfErr result (λ refusal. refusal ≡ Refusal.Number word) }
{
    match point_kind().read(atom) {
        Some(cell) if 0 <= cell => Ok(cell),
        _ => Err(Refusal::Number(word)),
    }
}

/// Reads how many columns or rows a view has, the word of this number.
fn read_side(atom: &[u8], word: u32) -> Result<u32, Refusal>
    ensures side { IfOk result (λ side. commands.side_number atom.now ≡ Some (pos side)) }
    ensures none { IfErr result (λ _. commands.side_number atom.now ≡ None) }
    ensures fault { IfErr result (λ refusal. refusal ≡ Refusal.Number word) }
{
    match plain_kind().read(atom) {
        Some(side) if 0 <= side => Ok(side as u32),
        _ => Err(Refusal::Number(word)),
    }
}

/// Reads the sizes of a view. The words are counted from `word`.
fn read_sizes(atoms: &[&[u8]], word: u32) -> Result<Sizes, Refusal>
    requires three { length atoms.now ≡ 3 }
    requires few { word + 3 < 2 ^ 32 }
    ensures sizes { IfOk result (λ sizes. commands.size_numbers (map (λ a. a.now) atoms.now) ≡ Some sizes.cell ∷ Some (pos sizes.w) ∷ Some (pos sizes.h) ∷ []) }
    ensures within { IfOk result (λ sizes. IsAtMost VIEW_NUMBER sizes.cell) }
    ensures fault { IfErr result (λ refusal. commands.numbers_fault word 1 (commands.size_numbers (map (λ a. a.now) atoms.now)) ≡ Some refusal) }
{
    let cell = read_cell(atoms[0], word)?;
    let w = read_side(atoms[1], word + 1)?;
    let h = read_side(atoms[2], word + 2)?;
    Ok(Sizes { cell, w, h })
}

/// The view, or why it is refused.
fn checked(view: View) -> Result<CheckedView, Refusal>
    requires corner { IsWithin VIEW_NUMBER view.corner }
    requires cell { IsAtMost VIEW_NUMBER view.cell }
    ensures { result ≡ view_unless_fault view }
{
    match CheckedView::of_view(view) {
        Ok(view) => Ok(view),
        Err(fault) => Err(Refusal::View(fault)),
    }
}

/// Reads `X Y Z CELL W H`, the numbers of a view. The words are counted from `word`.
fn read_view(dir: Dir, atoms: &[&[u8]], word: u32) -> Result<CheckedView, Refusal>
    requires six { length atoms.now ≡ 6 }
    requires few { word + 6 < 2 ^ 32 }
    ensures { result ≡ view_read word dir (six_numbers (map (λ a. a.now) atoms.now)) }
{
    let mut corner = [0; 3];
    if let Some(refusal) = read_numbers(&atoms[..3], word, NumberList::Point, &mut corner) {
        return Err(refusal);
    }
    let sizes = read_sizes(&atoms[3..], word + 3)?;
    checked(View {
        corner: vector_at(&corner, 0),
        dir,
        cell: sizes.cell,
        w: sizes.w,
        h: sizes.h,
    })
}

/// What a line with a file and a view asks for.
#[derive(Clone, Copy)]
pub(crate) enum FileShoot {
    /// A picture.
    OfPixels,
    /// The picture of edges.
    OfEdges,
}

impl FileShoot {
    /// The command that asks for it.
    fn command(self, file: Name, view: CheckedView, names: NameList) -> Command
        ensures { result ≡ commands.file_shoot self file view names }
    {
        match self {
            FileShoot::OfPixels => Command::Shoot(Shoot::Picture { file, view, names }),
            FileShoot::OfEdges => Command::Shoot(Shoot::Edge { file, view, names }),
        }
    }
}

/// What a line with a view and no file asks for.
#[derive(Clone, Copy)]
pub(crate) enum LineShoot {
    /// The overlaps.
    OfOverlaps,
    /// The areas.
    OfAreas,
}

impl LineShoot {
    /// The command that asks for it.
    fn command(self, view: CheckedView, names: NameList) -> Command
        ensures { result ≡ commands.line_shoot self view names }
    {
        match self {
            LineShoot::OfOverlaps => Command::Shoot(Shoot::Check { view, names }),
            LineShoot::OfAreas => Command::Shoot(Shoot::Area { view, names }),
        }
    }
}

/// Reads `FILE DIR X Y Z CELL W H NAME ..`, with the direction read.
fn file_command(
    alloc: Global,
    what: FileShoot,
    file: &[u8],
    dir: Dir,
    numbers: &[&[u8]],
    names: &[&[u8]],
) -> Result<Command, LineFault>
    requires six { length numbers.now ≡ 6 }
    requires few { length names.now < 2 ^ 31 }
    ensures { IsRead result (commands.file_command what file.now (Some dir) (six_numbers (map (λ a. a.now) numbers.now)) (map (λ a. a.now) names.now)) }
{
    let file = read_name(file, 2)?;
    let names = NameList::of_vec(read_names(alloc, names, 10)?);
    let view = read_view(dir, numbers, 4)?;
    Ok(what.command(file, view, names))
}

/// Reads `DIR X Y Z CELL W H NAME ..`, with the direction read.
fn view_command(
    alloc: Global,
    what: LineShoot,
    dir: Dir,
    numbers: &[&[u8]],
    names: &[&[u8]],
) -> Result<Command, LineFault>
    requires six { length numbers.now ≡ 6 }
    requires few { length names.now < 2 ^ 31 }
    ensures { IsRead result (commands.view_command what (Some dir) (six_numbers (map (λ a. a.now) numbers.now)) (map (λ a. a.now) names.now)) }
{
    let names = NameList::of_vec(read_names(alloc, names, 9)?);
    let view = read_view(dir, numbers, 3)?;
    Ok(what.command(view, names))
}

/// Reads what follows `rt` and `rtedge`: `FILE DIR X Y Z CELL W H NAME ..`.
#[inline(never)]
pub(crate) fn filed_command(
    alloc: Global,
    what: FileShoot,
    atoms: &[&[u8]],
) -> Result<Command, LineFault>
    requires { length atoms.now < 2 ^ 31 }
    ensures { IsRead result (commands.filed_command what (map (λ a. a.now) atoms.now)) }
{
    if atoms.len() < 9 {
        return Err(LineFault::Refused(Refusal::Syntax));
    }
    match direction(atoms[1]) {
        Some(dir) => file_command(alloc, what, atoms[0], dir, &atoms[2..8], &atoms[8..]),
        None => Err(LineFault::Refused(Refusal::Syntax)),
    }
}

/// Reads what follows `rtcheck` and `rtarea`: `DIR X Y Z CELL W H NAME ..`.
#[inline(never)]
pub(crate) fn viewed_command(
    alloc: Global,
    what: LineShoot,
    atoms: &[&[u8]],
) -> Result<Command, LineFault>
    requires { length atoms.now < 2 ^ 31 }
    ensures { IsRead result (commands.viewed_command what (map (λ a. a.now) atoms.now)) }
{
    if atoms.len() < 8 {
        return Err(LineFault::Refused(Refusal::Syntax));
    }
    match direction(atoms[0]) {
        Some(dir) => view_command(alloc, what, dir, &atoms[1..7], &atoms[7..]),
        None => Err(LineFault::Refused(Refusal::Syntax)),
    }
}
