use command_set::Command;
use std::sync::Arc;

/// A command of a script, with the number of its session, from 1 to 8, and the number of its line, from 1.
#[derive(Drop)]
pub struct ScriptCommand {
    pub session: u8,
    pub line: u32,
    pub command: Arc<Command>,
}
