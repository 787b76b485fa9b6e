//! Reads names among the words of a line.
ghost use Rattle.std.specs.Prelude.{◌≡◌, ◌+◌, ◌<◌, ◌^◌, None, Some, length, map, vec_len, IfOk, IfErr};
ghost use Rattle.mged_words.specs.Commands as commands;
ghost use Rattle.mged_words.specs.Readings.{HasFault};

use crate::fault::LineFault;
use command_set::Refusal;
use name_core::Name;
use std::alloc::Global;

/// Reads the name that the word of a number is.
pub(crate) fn read_name(atom: &[u8], word: u32) -> Result<Name, Refusal>
    ensures name { IfOk result (λ name. name ≡ atom.now) }
    ensures none { IfOk result (λ _. commands.name_fault word atom.now ≡ None) }
    ensures fault { IfErr result (λ refusal. commands.name_fault word atom.now ≡ Some refusal) }
{
    match Name::read(atom) {
        Ok(name) => Ok(name),
        Err(_) => Err(Refusal::Name(word)),
    }
}

/// Reads names. The words are counted from `word`.
pub(crate) fn read_names(alloc: Global, atoms: &[&[u8]], word: u32) -> Result<Vec<Name>, LineFault>
    requires { word + length atoms.now < 2 ^ 32 }
    ensures names { IfOk result (λ names. names.items ≡ map (λ a. a.now) atoms.now) }
    ensures few { IfOk result (λ names. vec_len names ≡ length atoms.now) }
    ensures fault { HasFault result (commands.names_fault word 1 (map (λ a. a.now) atoms.now)) }
{
    let mut names = Vec::new(alloc);
    for (i, atom) in atoms.iter().enumerate() {
        names.push(read_name(atom, word + i as u32)?)?;
    }
    Ok(names)
}
