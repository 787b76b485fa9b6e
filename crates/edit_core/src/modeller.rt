ghost use Rattle.std.specs.Prelude.{◌≡◌, true, false, Ok, IfOk};
ghost use Rattle.std.specs.Arc.{arc_value};
ghost use Rattle.command_set.specs.declared.command.Command.TheVariants.{Edit as IsEdit};
ghost use Rattle.edit_core.specs.Modelling as modelling;

use crate::applying::apply;
use command_set::{Command, Edit, Refusal};
use directory::Directory;
use memory_core::Memory;
use std::alloc::Global;
use std::sync::Arc;
use version_table::{Machine, Stepped};

/// What a step gives.
type Step = Stepped<Directory, Result<(), Refusal>>;

/// The directory that an accepted edit made.
fn makes(alloc: Global, directory: Directory) -> Result<Step, Memory>
    ensures state { IfOk result (λ s. arc_value s.state ≡ directory) }
    ensures reply { IfOk result (λ s. s.reply ≡ Ok tt) }
    ensures commits { IfOk result (λ s. s.commits ≡ true) }
{
    let state = Arc::new(alloc, directory)?;
    Ok(Stepped {
        state,
        reply: Ok(()),
        commits: true,
    })
}

/// Another share of the same directory, with this reply.
fn stays(state: &Arc<Directory>, reply: Result<(), Refusal>) -> Result<Step, Memory>
    ensures state { IfOk result (λ s. arc_value s.state ≡ arc_value state.now) }
    ensures reply { IfOk result (λ s. s.reply ≡ reply) }
    ensures commits { IfOk result (λ s. s.commits ≡ false) }
{
    let state = state.clone()?;
    Ok(Stepped {
        state,
        reply,
        commits: false,
    })
}

/// Applies an edit to a copy.
fn step_by(alloc: Global, state: &Arc<Directory>, edit: &Edit) -> Result<Step, Memory>
    ensures state { IfOk result (λ s. arc_value s.state ≡ modelling.next (arc_value state.now) (IsEdit edit.now)) }
    ensures reply { IfOk result (λ s. s.reply ≡ modelling.reply (arc_value state.now) (IsEdit edit.now)) }
    ensures commits { IfOk result (λ s. s.commits ≡ modelling.commits (arc_value state.now) (IsEdit edit.now)) }
{
    let mut directory = state.copy(alloc)?;
    match apply(alloc, &mut directory, edit) {
        Ok(()) => makes(alloc, directory),
        Err(Refusal::Memory) => Err(Memory),
        Err(refusal) => stays(state, Err(refusal)),
    }
}

/// The machine of directories and commands. An accepted edit makes a new directory beside the old one, and a new
/// version; whatever else gives another share of the old one.
pub struct Modeller;

impl Machine for Modeller {
    ghost use Rattle.edit_core.specs.Modelling as modelling;

    type State = Directory;

    type Command = Command;

    type Reply = Result<(), Refusal>;

    ghost next = { modelling.next };

    ghost reply = { modelling.reply };

    ghost commits = { modelling.commits };

    ghost is_look = { modelling.is_look };

    ghost look_stays = { modelling.look_stays };

    ghost look_keeps_version = { modelling.look_keeps_version };

    fn looks(command: &Command) -> bool {
        !matches!(command, Command::Edit(_))
    }

    fn step(alloc: Global, state: &Arc<Directory>, command: &Command) -> Result<Step, Memory> {
        match command {
            Command::Bad(_) | Command::Query(_) | Command::Shoot(_) => stays(state, Ok(())),
            Command::Edit(edit) => step_by(alloc, state, edit),
        }
    }
}
