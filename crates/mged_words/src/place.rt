//! Reads the command that places the members of a combination.
ghost use Rattle.std.specs.Prelude.{All, ◌≡◌, Some, cond, length, map, IfOk};
ghost use Rattle.std.specs.Option.{option_map};
ghost use Rattle.tcl_words.specs.TopWords.{AreTokensIn, IsWordOf};
ghost use Rattle.word_values.specs.Kinds.{numbers_as};
ghost use Rattle.word_values.specs.declared.atoms.NumberList.TheVariants as lists;
ghost use Rattle.mged_words.specs.Commands as commands;
ghost use Rattle.mged_words.specs.Readings.{IsRead, matrix_read};

use crate::atoms::read_numbers;
use crate::fault::LineFault;
use crate::names::read_name;
use command_set::{Command, Edit, NearPlacement, Refusal};
use lattice_core::Placement;
use memory_core::Memory;
use std::alloc::Global;
use tcl_words::{Token, Word, atom_text};
use word_values::{NumberList, group_atoms, placement_of, word_atoms};

/// The refusal of a number of a matrix: each number of a group has the word of the group.
fn matrix_refusal(is_group: bool, refusal: Refusal) -> Refusal
    ensures { result ≡ cond is_group (Refusal.Number 4) refusal }
{
    if is_group {
        Refusal::Number(4)
    } else {
        refusal
    }
}

/// Reads the placement of sixteen numbers. Those of a group all have its number.
fn read_placement(is_group: bool, atoms: &[&[u8]]) -> Result<NearPlacement, Refusal>
    requires { length atoms.now ≡ 16 }
    ensures { result ≡ matrix_read (cond is_group 0 1) (numbers_as lists.Matrix (map (λ a. a.now) atoms.now)) }
{
    let mut numbers = [0; 16];
    if let Some(refusal) = read_numbers(atoms, 4, NumberList::Matrix, &mut numbers) {
        return Err(matrix_refusal(is_group, refusal));
    }
    match placement_of(&numbers) {
        Some(placement) => Ok(NearPlacement::of_placement(placement)),
        None => Err(Refusal::Number(4)),
    }
}

/// Reads `place COMB MEMBER` and the words of a matrix.
fn sixteen_command(
    comb: &[u8],
    member: &[u8],
    is_group: bool,
    atoms: &[&[u8]],
) -> Result<Command, LineFault>
    ensures { IsRead result (commands.sixteen_command comb.now member.now (cond is_group 0 1) (Some (map (λ a. a.now) atoms.now))) }
{
    if atoms.len() != 16 {
        return Err(LineFault::Refused(Refusal::Syntax));
    }
    let comb = read_name(comb, 2)?;
    let member = read_name(member, 3)?;
    let placement = read_placement(is_group, atoms)?;
    Ok(Command::Edit(Edit::Place {
        comb,
        member,
        placement,
    }))
}

/// The words of a matrix: those in a single group, or the words themselves.
fn matrix_words<'a>(
    alloc: Global,
    line: &'a [u8],
    tokens: &[Token],
    words: &[Word],
) -> Result<Option<Vec<&'a [u8]>>, Memory>
    requires tokens { AreTokensIn (length line.now) tokens.now }
    requires words { All (IsWordOf tokens.now) words.now }
    ensures { IfOk result (λ found. option_map (λ atoms. map (λ a. a.now) atoms.items) found ≡ commands.matrix_words line.now tokens.now words.now) }
{
    match words {
        [group] => group_atoms(alloc, line, tokens, *group),
        _ => word_atoms(alloc, line, tokens, words),
    }
}

/// Reads `place COMB MEMBER` and a matrix.
fn place_with(
    alloc: Global,
    line: &[u8],
    tokens: &[Token],
    words: &[Word],
    comb: &[u8],
    member: &[u8],
) -> Result<Command, LineFault>
    requires tokens { AreTokensIn (length line.now) tokens.now }
    requires words { All (IsWordOf tokens.now) words.now }
    ensures { IsRead result (commands.sixteen_command comb.now member.now (commands.matrix_step words.now) (commands.matrix_words line.now tokens.now words.now)) }
{
    match matrix_words(alloc, line, tokens, words)? {
        Some(atoms) => sixteen_command(comb, member, words.len() == 1, &atoms),
        None => Err(LineFault::Refused(Refusal::Syntax)),
    }
}

/// Reads what follows `place`: `COMB MEMBER` and sixteen numbers, or one group of them.
#[inline(never)]
pub(crate) fn place_command(
    alloc: Global,
    line: &[u8],
    tokens: &[Token],
    words: &[Word],
) -> Result<Command, LineFault>
    requires tokens { AreTokensIn (length line.now) tokens.now }
    requires words { All (IsWordOf tokens.now) words.now }
    ensures { IsRead result (commands.place_command line.now tokens.now words.now) }
{
    match words {
        [comb, member, matrix @ ..] => {
            let Some(comb) = atom_text(line, tokens, *comb) else {
                return Err(LineFault::Refused(Refusal::Syntax));
            };
            let Some(member) = atom_text(line, tokens, *member) else {
                return Err(LineFault::Refused(Refusal::Syntax));
            };
            place_with(alloc, line, tokens, matrix, comb, member)
        }
        _ => Err(LineFault::Refused(Refusal::Syntax)),
    }
}
