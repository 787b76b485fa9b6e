//! Directories that scripts make. The commands of a script are parted by `;`.

use case_text::{CaseFault, words_of};
use command_set::Command;
use directory::Directory;
use edit_core::apply;
use item_list::Items;
use mged_words::{SCRIPT_SIZE, ScriptCommand, read_script};
use name_core::Name;
use std::alloc::Global;

/// The commands of a script.
pub fn commands_of(alloc: Global, script: &[u8]) -> Result<Items<ScriptCommand>, CaseFault> {
    let mut text = Vec::from_slice(alloc, script)?;
    for byte in text.iter_mut() {
        if *byte == b';' {
            *byte = b'\n';
        }
    }
    if text.len() > SCRIPT_SIZE {
        return Err(CaseFault::Line);
    }
    match read_script(alloc, &text) {
        Ok(commands) => Ok(commands),
        Err(_) => Err(CaseFault::Line),
    }
}

/// Does an edit, which is to be accepted.
fn edit(alloc: Global, directory: &mut Directory, command: &Command) -> Result<(), CaseFault> {
    let Command::Edit(edit) = command else {
        return Err(CaseFault::Line);
    };
    match apply(alloc, directory, edit) {
        Ok(()) => Ok(()),
        Err(_) => Err(CaseFault::Line),
    }
}

/// The directory of edits.
pub fn directory_by(alloc: Global, edits: &[ScriptCommand]) -> Result<Directory, CaseFault> {
    let mut directory = Directory::new(alloc);
    for next in edits {
        edit(alloc, &mut directory, &next.command)?;
    }
    Ok(directory)
}

/// The directory of a script of edits.
pub fn directory_of(alloc: Global, script: &[u8]) -> Result<Directory, CaseFault> {
    directory_by(alloc, commands_of(alloc, script)?.items())
}

/// The name of a word.
pub fn name_of(word: &[u8]) -> Result<Name, CaseFault> {
    match Name::read(word) {
        Ok(name) => Ok(name),
        Err(_) => Err(CaseFault::Line),
    }
}

/// The names of a list of words.
pub fn names_of(alloc: Global, list: &[u8]) -> Result<Vec<Name>, CaseFault> {
    let mut names = Vec::new(alloc);
    for word in words_of(alloc, list)? {
        names.push(name_of(word)?)?;
    }
    Ok(names)
}
