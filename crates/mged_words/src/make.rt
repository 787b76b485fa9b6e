//! Reads the commands that make solids.
ghost use Rattle.std.specs.Prelude.{◌≡◌, length, map, Some};
ghost use Rattle.word_values.specs.Kinds.{AllWithinKinds, numbers_as};
ghost use Rattle.word_values.specs.declared.atoms.NumberList.TheVariants as lists;
ghost use Rattle.word_values.specs.Solids as solids;
ghost use Rattle.mged_words.specs.Commands as commands;
ghost use Rattle.mged_words.specs.Readings.{IsRead};

use crate::atoms::read_numbers;
use crate::fault::LineFault;
use command_set::{Command, Edit, HeldObject, Refusal};
use name_core::Name;
use object_set::Object;
use std::alloc::Global;
use word_values::{NumberList, SolidKind};

/// Makes the solid of a kind by its numbers.
fn make_command(
    alloc: Global,
    name: Name,
    kind: SolidKind,
    numbers: &[i64],
) -> Result<Command, LineFault>
    requires count { length numbers.now ≡ solids.number_count kind }
    requires sizes { AllWithinKinds (lists.Solid kind) numbers.now }
    ensures { IsRead result (commands.make_command name (solids.solid_made kind (map (λ n. Some n) numbers.now))) }
{
    match kind.make(numbers) {
        Ok(solid) => {
            let object = HeldObject::new(alloc, Object::of_solid(alloc, solid))?;
            Ok(Command::Edit(Edit::Make { name, object }))
        }
        Err(fault) => Err(LineFault::Refused(Refusal::Shape(fault))),
    }
}

/// Reads the numbers of a solid, and makes it.
fn numbers_command(
    alloc: Global,
    name: Name,
    kind: SolidKind,
    atoms: &[&[u8]],
) -> Result<Command, LineFault>
    requires { length atoms.now ≡ solids.number_count kind }
    ensures { IsRead result (commands.numbers_command name kind (numbers_as (lists.Solid kind) (map (λ a. a.now) atoms.now))) }
{
    let mut numbers = [0; 24];
    let numbers = &mut numbers[..atoms.len()];
    if let Some(refusal) = read_numbers(atoms, 4, NumberList::Solid(kind), numbers) {
        return Err(LineFault::Refused(refusal));
    }
    make_command(alloc, name, kind, numbers)
}

/// Reads `in NAME KIND` and the numbers of that kind.
fn solid_command(
    alloc: Global,
    name: &[u8],
    kind: SolidKind,
    atoms: &[&[u8]],
) -> Result<Command, LineFault>
    requires { length atoms.now ≡ solids.number_count kind }
    ensures { IsRead result (commands.solid_command name.now kind (numbers_as (lists.Solid kind) (map (λ a. a.now) atoms.now))) }
{
    match Name::read(name) {
        Ok(name) => numbers_command(alloc, name, kind, atoms),
        Err(_) => Err(LineFault::Refused(Refusal::Name(2))),
    }
}

fn kind_command(
    alloc: Global,
    name: &[u8],
    kind: Option<SolidKind>,
    atoms: &[&[u8]],
) -> Result<Command, LineFault>
    ensures { IsRead result (commands.kind_command name.now kind (map (λ a. a.now) atoms.now)) }
{
    match kind {
        Some(kind) => {
            if atoms.len() == kind.number_count() {
                solid_command(alloc, name, kind, atoms)
            } else {
                Err(LineFault::Refused(Refusal::Syntax))
            }
        }
        None => Err(LineFault::Refused(Refusal::Syntax)),
    }
}

/// Reads what follows `in`: `NAME KIND` and the numbers of that kind.
#[inline(never)]
pub(crate) fn in_command(alloc: Global, atoms: &[&[u8]]) -> Result<Command, LineFault>
    ensures { IsRead result (commands.in_command (map (λ a. a.now) atoms.now)) }
{
    match atoms {
        [name, kind, numbers @ ..] => kind_command(alloc, name, SolidKind::of_word(kind), numbers),
        _ => Err(LineFault::Refused(Refusal::Syntax)),
    }
}
