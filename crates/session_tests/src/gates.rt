//! Gates that hold threads until others have come so far, and one that notes which tiles are begun and which versions are committed.

use memory_core::Memory;
use outside_core::{Gate, GateEvent};
use std::alloc::Global;
use std::hint::spin_loop;
use std::sync::atomic::{AtomicU32, Ordering};

/// How many turns a hold takes at the most.
const MOST_TURNS: u32 = 1_000_000_000;

fn count(one: &AtomicU32) {
    one.fetch_add(1, Ordering::SeqCst);
}

fn counted(one: &AtomicU32) -> u32 {
    one.load(Ordering::SeqCst)
}

/// Holds the thread until a count is at least so great. False where it was not after all turns.
fn reaches(one: &AtomicU32, least: u32) -> bool {
    for _ in 0..MOST_TURNS {
        if least <= counted(one) {
            return true;
        }
        spin_loop();
    }
    false
}

/// What was told, and how many holds ended without what they waited for.
#[derive(Drop)]
struct Holds {
    ended: AtomicU32,
}

impl Holds {
    fn new() -> Holds {
        Holds {
            ended: AtomicU32::new(0),
        }
    }

    fn hold(&self, one: &AtomicU32, least: u32) {
        if !reaches(one, least) {
            count(&self.ended);
        }
    }

    fn never_ended(&self) -> bool {
        counted(&self.ended) == 0
    }
}

/// Holds session 2 in its first commit until session 1 has begun tile 0, and each beginning of tile 0 of session 1 until
/// session 2 has committed twice.
#[derive(Drop)]
pub(crate) struct SessionsMeet {
    begun: AtomicU32,
    committed: AtomicU32,
    holds: Holds,
}

impl SessionsMeet {
    pub(crate) fn new() -> SessionsMeet {
        SessionsMeet {
            begun: AtomicU32::new(0),
            committed: AtomicU32::new(0),
            holds: Holds::new(),
        }
    }

    /// Whether tile 0 was begun, session 2 committed twice, and each hold ended so.
    pub(crate) fn have_met(&self) -> bool {
        0 < counted(&self.begun) && counted(&self.committed) == 2 && self.holds.never_ended()
    }
}

impl Gate for SessionsMeet {
    fn at(&self, event: GateEvent) {
        match event {
            GateEvent::TileBegin {
                session: 1,
                tile: 0,
                ..
            } => {
                count(&self.begun);
                self.holds.hold(&self.committed, 2);
            }
            GateEvent::Committed { session: 2, .. } => {
                count(&self.committed);
                self.holds.hold(&self.begun, 1);
            }
            _ => {}
        }
    }
}

/// Holds each beginning of the tiles 0 and 1 until the other one was begun, and the commit of version 5 until both were.
#[derive(Drop)]
pub(crate) struct WorkersMeet {
    first: AtomicU32,
    second: AtomicU32,
    holds: Holds,
}

impl WorkersMeet {
    pub(crate) fn new() -> WorkersMeet {
        WorkersMeet {
            first: AtomicU32::new(0),
            second: AtomicU32::new(0),
            holds: Holds::new(),
        }
    }

    /// Whether both tiles were begun, and each hold ended so.
    pub(crate) fn have_met(&self) -> bool {
        0 < counted(&self.first) && 0 < counted(&self.second) && self.holds.never_ended()
    }
}

impl Gate for WorkersMeet {
    fn at(&self, event: GateEvent) {
        match event {
            GateEvent::TileBegin { tile: 0, .. } => {
                count(&self.first);
                self.holds.hold(&self.second, 1);
            }
            GateEvent::TileBegin { tile: 1, .. } => {
                count(&self.second);
                self.holds.hold(&self.first, 1);
            }
            GateEvent::Committed { version: 5, .. } => {
                self.holds.hold(&self.first, 1);
                self.holds.hold(&self.second, 1);
            }
            _ => {}
        }
    }
}

/// Holds the commit of version 5 until tile 0 was begun, and each beginning of tile 0 until version 5 was committed.
#[derive(Drop)]
pub(crate) struct EditMeetsPicture {
    begun: AtomicU32,
    committed: AtomicU32,
    holds: Holds,
}

impl EditMeetsPicture {
    pub(crate) fn new() -> EditMeetsPicture {
        EditMeetsPicture {
            begun: AtomicU32::new(0),
            committed: AtomicU32::new(0),
            holds: Holds::new(),
        }
    }

    /// Whether tile 0 was begun, version 5 committed, and each hold ended so.
    pub(crate) fn have_met(&self) -> bool {
        0 < counted(&self.begun) && counted(&self.committed) == 1 && self.holds.never_ended()
    }
}

impl Gate for EditMeetsPicture {
    fn at(&self, event: GateEvent) {
        match event {
            GateEvent::TileBegin { tile: 0, .. } => {
                count(&self.begun);
                self.holds.hold(&self.committed, 1);
            }
            GateEvent::Committed { version: 5, .. } => {
                count(&self.committed);
                self.holds.hold(&self.begun, 1);
            }
            _ => {}
        }
    }
}

/// How many commands, tiles and versions a record has room for.
const COMMANDS: u32 = 10;

const TILES: u32 = 2;

const VERSIONS: u32 = 10;

fn no_counts(alloc: Global, len: u32) -> Result<Vec<AtomicU32>, Memory> {
    let mut counts = Vec::new(alloc);
    for _ in 0..len {
        counts.push(AtomicU32::new(0))?;
    }
    Ok(counts)
}

/// Holds nobody, and notes how often session 1 begins each tile of each command, and how often it commits each version.
#[derive(Drop)]
pub(crate) struct EventRecord {
    begun: Vec<AtomicU32>,
    committed: Vec<AtomicU32>,
    others: AtomicU32,
}

impl EventRecord {
    pub(crate) fn new(alloc: Global) -> Result<EventRecord, Memory> {
        Ok(EventRecord {
            begun: no_counts(alloc, COMMANDS * TILES)?,
            committed: no_counts(alloc, VERSIONS)?,
            others: AtomicU32::new(0),
        })
    }

    fn place(&self, command: u32, tile: u32) -> &AtomicU32 {
        if COMMANDS <= command || TILES <= tile {
            return &self.others;
        }
        match self.begun.get((command * TILES + tile) as usize) {
            Some(one) => one,
            None => &self.others,
        }
    }

    fn version(&self, version: u32) -> &AtomicU32 {
        match self.committed.get(version as usize) {
            Some(one) => one,
            None => &self.others,
        }
    }

    /// Whether these versions were committed, each once, and no others.
    pub(crate) fn has_committed_once(&self, versions: &[u32]) -> bool {
        for version in 0..VERSIONS {
            let times = u32::from(versions.contains(&version));
            if counted(self.version(version)) != times {
                return false;
            }
        }
        counted(&self.others) == 0
    }

    /// Whether these are the commands with their tiles that were begun, repeats aside.
    pub(crate) fn has_begun(&self, pairs: &[(u32, u32)]) -> bool {
        for command in 0..COMMANDS {
            for tile in 0..TILES {
                let was_begun = 0 < counted(self.place(command, tile));
                if was_begun != pairs.contains(&(command, tile)) {
                    return false;
                }
            }
        }
        counted(&self.others) == 0
    }
}

impl Gate for EventRecord {
    fn at(&self, event: GateEvent) {
        match event {
            GateEvent::TileBegin {
                session: 1,
                command,
                tile,
            } => count(self.place(command, tile)),
            GateEvent::Committed {
                session: 1,
                version,
            } => count(self.version(version)),
            _ => count(&self.others),
        }
    }
}
