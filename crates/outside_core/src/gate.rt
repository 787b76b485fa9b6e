/// What a gate is told: a worker is about to shoot a tile, or a session has committed a version.
#[derive(Clone, Copy, Debug, PartialEq, Eq)]
pub enum GateEvent {
    /// A worker begins a tile of a session's command. Commands are counted in their session from 1, tiles
    /// in their picture from 0.
    TileBegin {
        session: u8,
        command: u32,
        tile: u32,
    },
    /// A session's command has made this version.
    Committed {
        session: u8,
        version: u32,
    },
}

/// A place at which a test may hold a thread. A gate answers nothing, and changes no result.
pub trait Gate {
    /// Told before the event goes on.
    fn at(&self, event: GateEvent);
}

/// A gate that holds nobody.
#[derive(Clone, Copy, Debug, PartialEq, Eq)]
pub struct OpenGate;

impl Gate for OpenGate {
    fn at(&self, _event: GateEvent) {}
}
