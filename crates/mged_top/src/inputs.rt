//! What a call reads before its run: the model that its words ask for, and the script.
ghost use Rattle.std.specs.Prelude.{◌≡◌, ◌≢◌, ◌≤◌, ℕ, List, Option, true, All, IfErr, IfOk, OnErr, OnOk, is_some, map, length};
ghost use Rattle.name_core.specs.declared.name.Name.{Name as TheName};
ghost use Rattle.outside_core.specs.Told.{Advances, Stays};
ghost use Rattle.mged_words.specs.Entries.{HasSession, command_entry};
ghost use Rattle.mged_words.specs.Readable.{IsReadable};
ghost use Rattle.option_words.specs.Grammar.{asked_of};
ghost use Rattle.option_words.specs.Reading.{HasNumber};
ghost use Rattle.mged_top.specs.Calls.{Explains, IsBeforeScript};
ghost use Rattle.mged_top.specs.Courses.{own_script};
ghost use Rattle.mged_top.specs.Outside.{outside};
ghost use Rattle.mged_top.specs.Stages.{HasRead};

use crate::load::load;
use crate::read::commands_of;
use crate::status::Status;
use directory::Directory;
use item_list::Items;
use mged_words::ScriptCommand;
use option_words::Model;
use outside_core::{Shelf, Source};
use std::alloc::Global;

/// What a run begins with.
#[derive(Drop)]
pub(crate) struct Inputs {
    /// The directory at the start.
    pub(crate) directory: Directory,
    /// The commands of the script.
    pub(crate) commands: Items<ScriptCommand>,
}

/// The directory of a model and the commands of the script, or the status with which the call ends.
pub(crate) fn read_inputs<S: Source, F: Shelf>(
    alloc: Global,
    model: Model,
    source: &mut S,
    shelf: &mut F,
) -> Result<Inputs, Status>
    requires { HasNumber model }
    ensures read { IfOk result (λ inputs. HasRead model (F.files shelf.old) (S.left source.old) (S.left source.new) inputs.directory (map command_entry inputs.commands)) }
    ensures sessions { IfOk result (λ inputs. All HasSession (map command_entry inputs.commands)) }
    ensures readable { IfOk result (λ inputs. All IsReadable (map command_entry inputs.commands)) }
    ensures few { IfOk result (λ inputs. length inputs.commands ≤ 65536) }
    ensures advances { Advances (S.left source.old) (S.left source.new) }
    ensures files_stay { Stays (F.files shelf.old) (F.files shelf.new) }
    ensures puts_stay { Stays (F.puts shelf.old) (F.puts shelf.new) }
    ensures reads { OnOk result (S.faults source.new ≡ S.faults source.old) }
    ensures calls { OnOk result (F.faults shelf.new ≡ F.faults shelf.old) }
    ensures stopped { IfErr result (λ status. (words : List (List ℕ)) (replay : Option TheName) (workers : ℕ) (held : Option (List ℕ)) (writes : ℕ) → asked_of words ≡ Option.Some (record { model = model; replay = replay; workers = workers }) →
        Explains status words
        (outside (S.left source.old) held (F.files shelf.old) (F.puts shelf.old) (S.faults source.old) writes (F.faults shelf.old))
        (outside (S.left source.new) held (F.files shelf.new) (F.puts shelf.new) (S.faults source.new) writes (F.faults shelf.new))) }
    ensures understood { IfErr result (λ status. status ≢ Status.Usage) }
    ensures unread { IfErr result (λ status. IsBeforeScript status → source.new ≡ source.old) }
    ensures demo_unread { is_some (own_script model) ≡ true → source.new ≡ source.old }
{
    let start = match load(alloc, shelf, model) {
        Ok(start) => start,
        Err(stop) => return Err(stop.status()),
    };
    let commands = match commands_of(alloc, source, &start.script) {
        Ok(commands) => commands,
        Err(stop) => return Err(stop.status()),
    };
    Ok(Inputs {
        directory: start.directory,
        commands,
    })
}
