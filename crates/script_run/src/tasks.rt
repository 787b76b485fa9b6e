//! What each session of a script is to run, with a pass of its own.
ghost use Rattle.std.specs.Prelude.{◌≡◌, ◌≤◌, ◌<◌, ◌+◌, ◌++◌, ◌∷◌, [], ◌^◌, All, IfOk, OnOk, length, map};
ghost use Rattle.std.specs.Arc.{arc_value};
ghost use Rattle.transcript.specs.Merge.{lane};
ghost use Rattle.transcript.specs.Transcript.{sessions};
ghost use Rattle.version_table.specs.Passes.{handed_over, pass_of};
ghost use Rattle.mged_words.specs.Entries.{HasSession, command_entry};
ghost use Rattle.script_run.specs.AtOnce.{IsTask, IsTaskOf, number_of, those_with};

use command_set::Command;
use edit_core::Modeller;
use memory_core::Memory;
use mged_words::ScriptCommand;
use session_run::Session;
use std::alloc::Global;
use std::sync::Arc;
use std::vec::Vec;
use version_table::{Pass, VersionTable};

/// What one session is to run, with its pass.
#[derive(Drop)]
pub struct Task {
    pub number: u8,
    pub session: Session,
    pub pass: Pass<Modeller>,
}

/// Takes a share of the command where it is the session's.
fn take_command(
    taken: &mut Vec<Arc<Command>>,
    next: &ScriptCommand,
    number: u8,
) -> Result<(), Memory>
    ensures { OnOk result (map arc_value taken.new.items ≡ map arc_value taken.old.items ++ lane (command_entry next.now ∷ []) number) }
{
    if next.session == number {
        let share = next.command.clone()?;
        taken.push(share)?;
    }
    Ok(())
}

/// The commands of a session.
pub fn session_commands(
    alloc: Global,
    script: &[ScriptCommand],
    number: u8,
) -> Result<Vec<Arc<Command>>, Memory>
    ensures { IfOk result (λ commands. map arc_value commands.items ≡ lane (map command_entry script.now) number) }
{
    let mut taken = Vec::new(alloc);
    for next in script {
        take_command(&mut taken, next, number)?;
    }
    Ok(taken)
}

/// What the session of this number is to run; none where it has no command.
fn task_of(
    alloc: Global,
    table: &VersionTable<Modeller>,
    pass: &mut Pass<Modeller>,
    script: &[ScriptCommand],
    number: u8,
) -> Result<Option<Task>, Memory>
    requires number { (1 ≤ number) × (number ≤ 8) }
    requires table { pass.old.table ≡ table.now.id }
    requires fresh { pass.old.seen ≡ [] }
    requires calls { length (lane (map command_entry script.now) number) ≤ pass.old.left }
    requires few { length script.now + 1 < 2 ^ 32 }
    ensures pass { OnOk result (pass.new ≡ handed_over (length (lane (map command_entry script.now) number)) pass.old) }
    ensures task { IfOk result (λ task. IsTaskOf table.now.id (map command_entry script.now) number task) }
{
    let commands = session_commands(alloc, script, number)?;
    if commands.is_empty() {
        return Ok(None);
    }
    let calls = commands.len() as u32;
    let session = Session::open(alloc, number, commands)?;
    let pass = table.split(pass, number, calls);
    Ok(Some(Task {
        number,
        session,
        pass,
    }))
}

/// Puts the task of the session of this number at the end of the tasks, where it has a command.
fn add_task(
    alloc: Global,
    table: &VersionTable<Modeller>,
    pass: &mut Pass<Modeller>,
    script: &[ScriptCommand],
    number: u8,
    tasks: &mut Vec<Task>,
) -> Result<(), Memory>
    requires number { (1 ≤ number) × (number ≤ 8) }
    requires table { pass.old.table ≡ table.now.id }
    requires fresh { pass.old.seen ≡ [] }
    requires calls { length (lane (map command_entry script.now) number) ≤ pass.old.left }
    requires few { length script.now + 1 < 2 ^ 32 }
    requires tasks { All (IsTask table.now.id (map command_entry script.now)) tasks.old.items }
    ensures pass { OnOk result (pass.new ≡ handed_over (length (lane (map command_entry script.now) number)) pass.old) }
    ensures tasks { OnOk result (All (IsTask table.now.id (map command_entry script.now)) tasks.new.items) }
    ensures numbers { OnOk result (map number_of tasks.new.items ≡ map number_of tasks.old.items ++ those_with (map command_entry script.now) (number ∷ [])) }
{
    if let Some(task) = task_of(alloc, table, pass, script, number)? {
        tasks.push(task)?;
    }
    Ok(())
}

/// The tasks of all sessions that have a command, in the order of their numbers. The pass hands all its calls to them.
pub fn tasks_of(
    alloc: Global,
    table: &VersionTable<Modeller>,
    pass: &mut Pass<Modeller>,
    script: &[ScriptCommand],
) -> Result<Vec<Task>, Memory>
    requires sessions { All HasSession (map command_entry script.now) }
    requires few { length script.now + 1 < 2 ^ 32 }
    requires pass { pass.old ≡ pass_of table.now.id 0 [] [] (length script.now) }
    ensures pass { OnOk result (pass.new ≡ pass_of table.now.id 0 [] [] 0) }
    ensures tasks { IfOk result (λ tasks. All (IsTask table.now.id (map command_entry script.now)) tasks.items) }
    ensures numbers { IfOk result (λ tasks. map number_of tasks.items ≡ those_with (map command_entry script.now) sessions) }
{
    let mut tasks = Vec::new(alloc);
    for i in 0..8usize {
        add_task(alloc, table, pass, script, i as u8 + 1, &mut tasks)?;
    }
    Ok(tasks)
}
