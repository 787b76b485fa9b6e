//! Reads the commands that are a word and names.
ghost use Rattle.std.specs.Prelude.{◌<◌, ◌^◌, length, map};
ghost use Rattle.mged_words.specs.Commands as commands;
ghost use Rattle.mged_words.specs.Readings.{IsRead};

use crate::fault::LineFault;
use crate::names::{read_name, read_names};
use command_set::{Command, Edit, NameList, Query, Refusal};
use std::alloc::Global;

/// Reads what follows `rm`: `COMB MEMBER ..`.
#[inline(never)]
pub(crate) fn rm_command(alloc: Global, atoms: &[&[u8]]) -> Result<Command, LineFault>
    requires { length atoms.now < 2 ^ 31 }
    ensures { IsRead result (commands.rm_command (map (λ a. a.now) atoms.now)) }
{
    match atoms {
        [comb, members @ ..] if !members.is_empty() => {
            let comb = read_name(comb, 2)?;
            let members = NameList::of_vec(read_names(alloc, members, 3)?);
            Ok(Command::Edit(Edit::Remove { comb, members }))
        }
        _ => Err(LineFault::Refused(Refusal::Syntax)),
    }
}

/// Reads what follows `kill`: `NAME ..`.
#[inline(never)]
pub(crate) fn kill_command(alloc: Global, atoms: &[&[u8]]) -> Result<Command, LineFault>
    requires { length atoms.now < 2 ^ 31 }
    ensures { IsRead result (commands.kill_command (map (λ a. a.now) atoms.now)) }
{
    if atoms.is_empty() {
        return Err(LineFault::Refused(Refusal::Syntax));
    }
    let names = NameList::of_vec(read_names(alloc, atoms, 2)?);
    Ok(Command::Edit(Edit::Kill { names }))
}

/// Reads what follows `mvall`: `OLD NEW`.
#[inline(never)]
pub(crate) fn mvall_command(atoms: &[&[u8]]) -> Result<Command, LineFault>
    ensures { IsRead result (commands.mvall_command (map (λ a. a.now) atoms.now)) }
{
    if atoms.len() != 2 {
        return Err(LineFault::Refused(Refusal::Syntax));
    }
    let old = read_name(atoms[0], 2)?;
    let new = read_name(atoms[1], 3)?;
    Ok(Command::Edit(Edit::RenameAll { old, new }))
}

/// Reads what follows `ls`: nothing.
#[inline(never)]
pub(crate) fn ls_command(atoms: &[&[u8]]) -> Result<Command, LineFault>
    ensures { IsRead result (commands.ls_command (map (λ a. a.now) atoms.now)) }
{
    if atoms.is_empty() {
        Ok(Command::Query(Query::Names))
    } else {
        Err(LineFault::Refused(Refusal::Syntax))
    }
}

/// Reads what follows `l`: `NAME ..`.
#[inline(never)]
pub(crate) fn l_command(alloc: Global, atoms: &[&[u8]]) -> Result<Command, LineFault>
    requires { length atoms.now < 2 ^ 31 }
    ensures { IsRead result (commands.l_command (map (λ a. a.now) atoms.now)) }
{
    if atoms.is_empty() {
        return Err(LineFault::Refused(Refusal::Syntax));
    }
    let names = NameList::of_vec(read_names(alloc, atoms, 2)?);
    Ok(Command::Query(Query::List { names }))
}

/// Reads what follows `tree`: `NAME ..`.
#[inline(never)]
pub(crate) fn tree_command(alloc: Global, atoms: &[&[u8]]) -> Result<Command, LineFault>
    requires { length atoms.now < 2 ^ 31 }
    ensures { IsRead result (commands.tree_command (map (λ a. a.now) atoms.now)) }
{
    if atoms.is_empty() {
        return Err(LineFault::Refused(Refusal::Syntax));
    }
    let names = NameList::of_vec(read_names(alloc, atoms, 2)?);
    Ok(Command::Query(Query::Tree { names }))
}

/// Reads what follows `save`: `FILE`.
#[inline(never)]
pub(crate) fn save_command(atoms: &[&[u8]]) -> Result<Command, LineFault>
    ensures { IsRead result (commands.save_command (map (λ a. a.now) atoms.now)) }
{
    match atoms {
        [file] => {
            let file = read_name(file, 2)?;
            Ok(Command::Query(Query::Save { file }))
        }
        _ => Err(LineFault::Refused(Refusal::Syntax)),
    }
}
