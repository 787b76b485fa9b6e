//! Reads the commands that take lists of members.
ghost use Rattle.std.specs.Prelude.{◌≡◌, ◌<◌, ◌^◌, true, Some, is_some, length, map, vec_len, IfOk};
ghost use Rattle.command_set.specs.Lawful.{AreNear};
ghost use Rattle.mged_words.specs.Commands as commands;
ghost use Rattle.mged_words.specs.Readings.{HasFault, IsRead};

use crate::fault::LineFault;
use crate::names::{read_name, read_names};
use comb_tree::{ListEntry, Op};
use command_set::{Command, Edit, MemberList, Refusal};
use lattice_core::Placement;
use memory_core::Memory;
use name_core::Name;
use std::alloc::Global;
use tcl_words::is_word;

fn operator(word: &[u8]) -> Option<Op>
    ensures { result ≡ commands.operator_of word.now }
{
    if is_word(word, b"u") {
        Some(Op::U)
    } else if is_word(word, b"+") {
        Some(Op::N)
    } else if is_word(word, b"-") {
        Some(Op::Minus)
    } else if is_word(word, b"^") {
        Some(Op::X)
    } else {
        None
    }
}

/// A new member, which stands where it was made.
fn entry(op: Op, name: Name) -> ListEntry
    ensures { result ≡ commands.entry_of op name }
{
    ListEntry {
        op,
        name,
        placement: Placement::identity(),
    }
}

/// Whether words are operators and members by turns.
fn is_list(words: &[&[u8]]) -> bool
    ensures { result ≡ is_some (commands.entries_of (map (λ a. a.now) words.now)) }
{
    let mut at = 0;
    while at + 1 < words.len() {
        if operator(words[at]).is_none() {
            return false;
        }
        at += 2;
    }
    at == words.len()
}

/// Reads the members of a list, of which the first word has number 3.
fn read_entries(alloc: Global, words: &[&[u8]]) -> Result<Vec<ListEntry>, LineFault>
    requires list { is_some (commands.entries_of (map (λ a. a.now) words.now)) ≡ true }
    requires few { length words.now < 2 ^ 31 }
    ensures entries { IfOk result (λ entries. commands.entries_of (map (λ a. a.now) words.now) ≡ Some entries.items) }
    ensures near { IfOk result (λ entries. AreNear entries.items) }
    ensures few { IfOk result (λ entries. vec_len entries < 2 ^ 31) }
    ensures fault { HasFault result (commands.members_fault 4 (commands.entries_of (map (λ a. a.now) words.now))) }
{
    let mut entries = Vec::new(alloc);
    let mut at = 0;
    while at + 1 < words.len() {
        let Some(op) = operator(words[at]) else {
            unreachable!()
        };
        let name = read_name(words[at + 1], at as u32 + 4)?;
        entries.push(entry(op, name))?;
        at += 2;
    }
    Ok(entries)
}

/// Reads `r NAME` and a list of members.
fn region_command(alloc: Global, name: &[u8], words: &[&[u8]]) -> Result<Command, LineFault>
    requires { length words.now < 2 ^ 31 }
    ensures { IsRead result (commands.region_command name.now (commands.entries_of (map (λ a. a.now) words.now))) }
{
    if words.is_empty() || !is_list(words) {
        return Err(LineFault::Refused(Refusal::Syntax));
    }
    let name = read_name(name, 2)?;
    let list = MemberList::of_vec(read_entries(alloc, words)?);
    Ok(Command::Edit(Edit::Region { name, list }))
}

/// Reads what follows `r`: `NAME OP MEMBER ..`.
#[inline(never)]
pub(crate) fn r_command(alloc: Global, atoms: &[&[u8]]) -> Result<Command, LineFault>
    requires { length atoms.now < 2 ^ 31 }
    ensures { IsRead result (commands.r_command (map (λ a. a.now) atoms.now)) }
{
    match atoms {
        [name, words @ ..] => region_command(alloc, name, words),
        _ => Err(LineFault::Refused(Refusal::Syntax)),
    }
}

/// New members of a union.
fn union_of(alloc: Global, names: &[Name]) -> Result<Vec<ListEntry>, Memory>
    ensures entries { IfOk result (λ entries. entries.items ≡ map (commands.entry_of Op.U) names.now) }
    ensures near { IfOk result (λ entries. AreNear entries.items) }
    ensures few { IfOk result (λ entries. vec_len entries ≡ length names.now) }
{
    let mut entries = Vec::new(alloc);
    for name in names {
        entries.push(entry(Op::U, *name))?;
    }
    Ok(entries)
}

/// Reads what follows `g`: `NAME MEMBER ..`.
#[inline(never)]
pub(crate) fn g_command(alloc: Global, atoms: &[&[u8]]) -> Result<Command, LineFault>
    requires { length atoms.now < 2 ^ 31 }
    ensures { IsRead result (commands.g_command (map (λ a. a.now) atoms.now)) }
{
    match atoms {
        [name, members @ ..] if !members.is_empty() => {
            let name = read_name(name, 2)?;
            let members = read_names(alloc, members, 3)?;
            let list = MemberList::of_vec(union_of(alloc, &members)?);
            Ok(Command::Edit(Edit::Group { name, list }))
        }
        _ => Err(LineFault::Refused(Refusal::Syntax)),
    }
}
