//! The commands of the script.
ghost use Rattle.std.specs.Prelude.{◌≡◌, ◌≢◌, ◌≤◌, ◌<◌, ◌^◌, true, All, IfOk, IfSome, Err, is_some, map, length};
ghost use Rattle.outside_core.specs.Faults.{Rose};
ghost use Rattle.outside_core.specs.Told.{Advances};
ghost use Rattle.mged_words.specs.Entries.{HasSession, command_entry};
ghost use Rattle.mged_words.specs.Readable.{IsReadable};
ghost use Rattle.mged_top.specs.Stages.{IsRead, IsReadBy, IsTextRead, script_status};

use crate::status::Status;
use item_list::Items;
use mged_words::{SCRIPT_SIZE, ScriptCommand, ScriptFault, ScriptFlaw, read_script};
use outside_core::{ReadStop, Source, read_all};
use std::alloc::Global;

/// Why there are no commands.
#[derive(Clone, Copy, Debug)]
pub(crate) enum ScriptStop {
    /// The script is refused.
    Refused(ScriptFlaw),
    /// A read failed.
    Failed,
    /// There was no memory.
    Memory,
}

impl ScriptStop {
    /// The status with which the call ends.
    pub(crate) fn status(&self) -> Status
        ensures { result ≡ script_status self.now }
    {
        match self {
            ScriptStop::Refused(flaw) => Status::ScriptRefused(*flaw),
            ScriptStop::Failed => Status::ReadFault,
            ScriptStop::Memory => Status::Memory,
        }
    }
}

/// The commands of the text of a script.
fn text_commands(alloc: Global, text: &[u8]) -> Result<Items<ScriptCommand>, ScriptStop>
    requires { length text.now < 2 ^ 31 }
    ensures read { IsTextRead result text.now }
    ensures sessions { IfOk result (λ commands. All HasSession (map command_entry commands)) }
    ensures readable { IfOk result (λ commands. All IsReadable (map command_entry commands)) }
    ensures few { IfOk result (λ commands. length commands ≤ 65536) }
    ensures kept { result ≢ Err ScriptStop.Failed }
{
    match read_script(alloc, text) {
        Ok(commands) => Ok(commands),
        Err(ScriptFault::At(flaw)) => Err(ScriptStop::Refused(flaw)),
        Err(ScriptFault::Memory) => Err(ScriptStop::Memory),
    }
}

/// The commands of the script that a source has left.
fn read_commands<S: Source>(
    alloc: Global,
    source: &mut S,
) -> Result<Items<ScriptCommand>, ScriptStop>
    ensures read { IsRead result (S.left source.old) (S.left source.new) }
    ensures sessions { IfOk result (λ commands. All HasSession (map command_entry commands)) }
    ensures readable { IfOk result (λ commands. All IsReadable (map command_entry commands)) }
    ensures few { IfOk result (λ commands. length commands ≤ 65536) }
    ensures advances { Advances (S.left source.old) (S.left source.new) }
    ensures steady { result ≢ Err ScriptStop.Failed → S.faults source.new ≡ S.faults source.old }
    ensures rose { result ≡ Err ScriptStop.Failed → Rose (S.faults source.old) (S.faults source.new) }
{
    let text = match read_all(alloc, source, SCRIPT_SIZE) {
        Ok(text) => text,
        Err(ReadStop::TooLong) => return Err(ScriptStop::Refused(ScriptFlaw::Size)),
        Err(ReadStop::Failed) => return Err(ScriptStop::Failed),
        Err(ReadStop::Memory) => return Err(ScriptStop::Memory),
    };
    text_commands(alloc, &text)
}

/// The commands of the script that the model comes with, or else of the one that a source has left.
pub(crate) fn commands_of<S: Source>(
    alloc: Global,
    source: &mut S,
    own: &Option<Items<u8>>,
) -> Result<Items<ScriptCommand>, ScriptStop>
    requires { IfSome own.now (λ text. length text < 2 ^ 31) }
    ensures read { IsReadBy result own.now (S.left source.old) (S.left source.new) }
    ensures sessions { IfOk result (λ commands. All HasSession (map command_entry commands)) }
    ensures readable { IfOk result (λ commands. All IsReadable (map command_entry commands)) }
    ensures few { IfOk result (λ commands. length commands ≤ 65536) }
    ensures advances { Advances (S.left source.old) (S.left source.new) }
    ensures steady { result ≢ Err ScriptStop.Failed → S.faults source.new ≡ S.faults source.old }
    ensures rose { result ≡ Err ScriptStop.Failed → Rose (S.faults source.old) (S.faults source.new) }
    ensures unread { is_some own.now ≡ true → source.new ≡ source.old }
{
    match own {
        Some(script) => text_commands(alloc, script.items()),
        None => read_commands(alloc, source),
    }
}
