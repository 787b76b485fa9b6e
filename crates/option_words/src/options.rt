//! What the words of the command line ask for.
use name_core::Name;

/// An option of the command line.
#[derive(Clone, Copy, Debug, PartialEq, Eq)]
pub enum Key {
    /// `--load NAME`: the file from which a model is loaded.
    Load,
    /// `--demo N`: the number that makes a model and a script for it.
    Demo,
    /// `--replay NAME`: the file that names the order of the run.
    Replay,
    /// `--workers N`: how many threads shoot the tiles of one picture or check while its session goes on.
    Workers,
}

/// The model that there is at the start.
#[derive(Clone, Copy, Debug, PartialEq, Eq)]
pub enum Model {
    /// None.
    Empty,
    /// That of the file of this name.
    OfFile(Name),
    /// That which this number makes. Its script is run in place of one that is read.
    OfDemo(u32),
}

/// What the words of the command line ask for.
#[derive(Clone, Copy, Debug, PartialEq, Eq)]
pub struct Options {
    /// The model that there is at the start.
    pub model: Model,
    /// The file that names the order of the run, where one is asked for.
    pub replay: Option<Name>,
    /// How many threads shoot the tiles of one picture or check while its session goes on: from 1 to 16, and 4 where the
    /// words do not say.
    pub workers: u8,
}
