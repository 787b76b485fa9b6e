//! Where bytes come from and go to: a source, a sink, a shelf of files and a gate as traits, their forms in
//! memory, and the adapters over any reader and writer, and over the working folder.
#![tactic(auto)]

mod adapters;
mod calls;
mod folder;
mod gate;
mod shelf;
mod sink;
mod source;
mod traits;
mod transfer;

pub use adapters::{InSource, OutSink};
pub use folder::FolderShelf;
pub use gate::{Gate, GateEvent, OpenGate};
pub use memory_core::Memory;
pub use shelf::VecShelf;
pub use sink::VecSink;
pub use source::VecSource;
pub use traits::{Failed, File, Shelf, ShelfFault, Sink, Source};
pub use transfer::{ReadStop, read_all, write_all};
