ghost use Rattle.std.specs.Prelude.{◌≡◌, IfOk, Bool, true, false};
ghost use Rattle.std.specs.Arc.{arc_value};

use memory_core::Memory;
use std::alloc::Global;
use std::sync::Arc;

/// What a command gives.
#[derive(Drop)]
pub struct Stepped<S: Drop, R: Drop> {
    pub state: Arc<S>,
    pub reply: R,
    pub commits: bool,
}

/// A state that commands change.
pub trait Machine {
    type State: Send + Sync + Drop;

    type Command: Send + Sync + Drop;

    type Reply: Drop;

    /// The state after a command.
    ghost next: { Self.State → Self.Command → Self.State };

    /// The reply to a command.
    ghost reply: { Self.State → Self.Command → Self.Reply };

    /// Whether the command makes a new version.
    ghost commits: { Self.State → Self.Command → Bool };

    /// Whether the command only looks.
    ghost is_look: { Self.Command → Bool };

    // A look changes nothing.
    ghost look_stays: { (state : Self.State) (command : Self.Command) → is_look command ≡ true → next state command ≡ state };

    ghost look_keeps_version: { (state : Self.State) (command : Self.Command) → is_look command ≡ true → commits state command ≡ false };

    fn looks(command: &Self::Command) -> bool
        ensures { result ≡ is_look command.now };

    /// Gives up only for want of memory.
    fn step(
        alloc: Global,
        state: &Arc<Self::State>,
        command: &Self::Command,
    ) -> Result<Stepped<Self::State, Self::Reply>, Memory>
        ensures state { IfOk result (λ s. arc_value s.state ≡ next (arc_value state.now) command.now) }
        ensures reply { IfOk result (λ s. s.reply ≡ reply (arc_value state.now) command.now) }
        ensures commits { IfOk result (λ s. s.commits ≡ commits (arc_value state.now) command.now) };
}
