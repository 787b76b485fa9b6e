//! Reads the commands that shoot rays.
ghost use Rattle.std.specs.Prelude.{◌≡◌, ◌<◌, ◌^◌, length, map, None, Some, IfErr, IfOk};
ghost use Rattle.lattice_core.specs.Limits.{IsAtMost};
ghost use Rattle.slant_ray.specs.declared.ray.TheConstants.{STEP};
ghost use Rattle.word_values.specs.Kinds.{numbers_as};
ghost use Rattle.word_values.specs.declared.atoms.NumberList.TheVariants as lists;
ghost use Rattle.mged_words.specs.Commands as commands;
ghost use Rattle.mged_words.specs.Readings.{IsRead, six_steps, slant_read};

use crate::atoms::read_numbers;
use crate::fault::LineFault;
use crate::names::read_names;
use command_set::{CheckedSlant, Command, NameList, Query, Refusal, ViewFault, WorldRay};
use lattice_core::{Dir, Ray};
use slant_ray::{STEP, SlantRay};
use std::alloc::Global;
use tcl_words::is_word;
use word_values::{NumberList, plain_kind, vector_at};

pub(crate) fn direction(word: &[u8]) -> Option<Dir>
    ensures { result ≡ commands.direction_of word.now }
{
    if is_word(word, b"+x") {
        Some(Dir::PlusX)
    } else if is_word(word, b"-x") {
        Some(Dir::MinusX)
    } else if is_word(word, b"+y") {
        Some(Dir::PlusY)
    } else if is_word(word, b"-y") {
        Some(Dir::MinusY)
    } else if is_word(word, b"+z") {
        Some(Dir::PlusZ)
    } else if is_word(word, b"-z") {
        Some(Dir::MinusZ)
    } else {
        None
    }
}

/// A shot from the world.
fn shot_at(ray: Ray, names: NameList) -> Result<Command, LineFault>
    ensures { IsRead result (commands.shot_from ray.origin ray.dir names) }
{
    match WorldRay::of_ray(ray) {
        Some(ray) => Ok(Command::Query(Query::Shot { ray, names })),
        None => Err(LineFault::Refused(Refusal::View(ViewFault::World))),
    }
}

/// Reads `nirt X Y Z DIR NAME ..`, with the direction read.
fn shot_command(
    alloc: Global,
    atoms: &[&[u8]],
    dir: Dir,
    names: &[&[u8]],
) -> Result<Command, LineFault>
    requires numbers { length atoms.now ≡ 3 }
    requires few { length names.now < 2 ^ 31 }
    ensures { IsRead result (commands.shot_command (numbers_as lists.Point (map (λ a. a.now) atoms.now)) (Some dir) (map (λ a. a.now) names.now)) }
{
    let names = NameList::of_vec(read_names(alloc, names, 6)?);
    let mut numbers = [0; 3];
    if let Some(refusal) = read_numbers(atoms, 2, NumberList::Point, &mut numbers) {
        return Err(LineFault::Refused(refusal));
    }
    let origin = vector_at(&numbers, 0);
    shot_at(Ray { origin, dir }, names)
}

/// Reads what follows `nirt`: `X Y Z DIR NAME ..`.
#[inline(never)]
pub(crate) fn nirt_command(alloc: Global, atoms: &[&[u8]]) -> Result<Command, LineFault>
    requires { length atoms.now < 2 ^ 31 }
    ensures { IsRead result (commands.nirt_command (map (λ a. a.now) atoms.now)) }
{
    if atoms.len() < 5 {
        return Err(LineFault::Refused(Refusal::Syntax));
    }
    match direction(atoms[3]) {
        Some(dir) => shot_command(alloc, &atoms[..3], dir, &atoms[4..]),
        None => Err(LineFault::Refused(Refusal::Syntax)),
    }
}

/// Reads a component of a lattice direction, the word of this number.
fn read_step(atom: &[u8], word: u32) -> Result<i8, Refusal>
    ensures step { IfOk result (λ step. commands.step_number atom.now ≡ Some step) }
    ensures within { IfOk result (λ step. IsAtMost STEP step) }
    ensures none { IfErr result (λ _. commands.step_number atom.now ≡ None) }
    ensures fault { IfErr result (λ refusal. refusal ≡ Refusal.Number word) }
{
    match plain_kind().read(atom) {
        Some(step) if -STEP <= step && step <= STEP => Ok(step as i8),
        _ => Err(Refusal::Number(word)),
    }
}

/// Reads `X Y Z DX DY DZ`, the numbers of a ray in a lattice direction. The words are counted from 2.
fn read_slant(atoms: &[&[u8]]) -> Result<CheckedSlant, Refusal>
    requires { length atoms.now ≡ 6 }
    ensures { result ≡ slant_read (six_steps (map (λ a. a.now) atoms.now)) }
{
    let mut numbers = [0; 3];
    if let Some(refusal) = read_numbers(&atoms[..3], 2, NumberList::Point, &mut numbers) {
        return Err(refusal);
    }
    let x = read_step(atoms[3], 5)?;
    let y = read_step(atoms[4], 6)?;
    let z = read_step(atoms[5], 7)?;
    let origin = vector_at(&numbers, 0);
    match CheckedSlant::of_ray(SlantRay { origin, x, y, z }) {
        Ok(ray) => Ok(ray),
        Err(fault) => Err(Refusal::View(fault)),
    }
}

/// Reads what follows `nirtd`: `X Y Z DX DY DZ NAME ..`.
#[inline(never)]
pub(crate) fn nirtd_command(alloc: Global, atoms: &[&[u8]]) -> Result<Command, LineFault>
    requires { length atoms.now < 2 ^ 31 }
    ensures { IsRead result (commands.nirtd_command (map (λ a. a.now) atoms.now)) }
{
    if atoms.len() < 7 {
        return Err(LineFault::Refused(Refusal::Syntax));
    }
    let names = NameList::of_vec(read_names(alloc, &atoms[6..], 8)?);
    let ray = read_slant(&atoms[..6])?;
    Ok(Command::Query(Query::Slant { ray, names }))
}
