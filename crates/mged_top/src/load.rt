//! What a call begins with: the directory of a load file, of a demo, or the empty one, and the script of a demo.
ghost use Rattle.std.specs.Prelude.{◌≡◌, ◌≢◌, ◌<◌, ◌^◌, Err};
ghost use Rattle.outside_core.specs.Faults.{Rose};
ghost use Rattle.outside_core.specs.Told.{Stays};
ghost use Rattle.mged_top.specs.Courses.{most_loaded};
ghost use Rattle.mged_top.specs.Stages.{IsLoad, IsModel, load_status, without_script};
ghost use Rattle.option_words.specs.Reading.{HasNumber};
ghost use Rattle.option_words.specs.declared.options.Model.TheVariants.{OfDemo, OfFile};
ghost use Rattle.mged_top.specs.declared.load.TheConstants.{LOAD_SIZE};

use crate::status::{LoadFault, Status};
use asc_form::{AscFault, read_asc};
use directory::Directory;
use item_list::Items;
use name_core::Name;
use option_words::Model;
use outside_core::{Shelf, ShelfFault};
use scene_make::{Demo, make_demo};
use std::alloc::Global;

/// The most bytes of a load file.
pub const LOAD_SIZE: usize = 16_777_216;

/// The limit is this number. This law is what refuses another constant.
pub fn limit_laws()
    ensures load { LOAD_SIZE ≡ 16777216 }
    ensures defined { most_loaded ≡ 16777216 }
{}

/// What a call begins with.
#[derive(Drop)]
pub(crate) struct Start {
    /// The directory at the start.
    pub(crate) directory: Directory,
    /// The script that the model comes with, which is run in place of one that is read.
    pub(crate) script: Option<Items<u8>>,
}

/// Why there is no directory at the start.
#[derive(Clone, Copy, Debug)]
pub(crate) enum LoadStop {
    /// The load file is refused.
    Refused(LoadFault),
    /// Its read failed.
    Failed,
    /// There was no memory.
    Memory,
}

impl LoadStop {
    /// The status with which the call ends.
    pub(crate) fn status(&self) -> Status
        ensures { result ≡ load_status self.now }
    {
        match self {
            LoadStop::Refused(fault) => Status::LoadRefused(*fault),
            LoadStop::Failed => Status::ReadFault,
            LoadStop::Memory => Status::Memory,
        }
    }
}

/// The directory of the first bytes of a file, of which one more was asked for than a load file may have.
fn read_model(alloc: Global, text: &[u8]) -> Result<Directory, LoadStop>
    ensures { IsModel result text.now }
{
    if text.len() > LOAD_SIZE {
        return Err(LoadStop::Refused(LoadFault::Size));
    }
    match read_asc(alloc, text) {
        Ok(directory) => Ok(directory),
        Err(AscFault::At { line, kind }) => Err(LoadStop::Refused(LoadFault::At { line, kind })),
        Err(AscFault::Memory) => Err(LoadStop::Memory),
    }
}

/// What a call begins with whose script is still to be read.
fn without_script(read: Result<Directory, LoadStop>) -> Result<Start, LoadStop>
    ensures { result ≡ without_script read }
{
    match read {
        Ok(directory) => Ok(Start {
            directory,
            script: None,
        }),
        Err(stop) => Err(stop),
    }
}

/// The directory of a file of the shelf.
fn load_file<F: Shelf>(alloc: Global, shelf: &mut F, name: &Name) -> Result<Start, LoadStop>
    ensures load { IsLoad result (OfFile name.now) (F.files shelf.old) }
    ensures files_stay { Stays (F.files shelf.old) (F.files shelf.new) }
    ensures puts_stay { Stays (F.puts shelf.old) (F.puts shelf.new) }
    ensures steady { result ≢ Err LoadStop.Failed → F.faults shelf.new ≡ F.faults shelf.old }
    ensures rose { result ≡ Err LoadStop.Failed → Rose (F.faults shelf.old) (F.faults shelf.new) }
{
    match shelf.get(alloc, name, LOAD_SIZE + 1) {
        Ok(Some(text)) => without_script(read_model(alloc, &text)),
        Ok(None) => Err(LoadStop::Refused(LoadFault::NoFile(*name))),
        Err(ShelfFault::Failed) => Err(LoadStop::Failed),
        Err(ShelfFault::Memory) => Err(LoadStop::Memory),
    }
}

/// The directory and the script of a demo.
fn load_demo(alloc: Global, number: u32) -> Result<Start, LoadStop>
    requires { number < 10 ^ 9 }
    ensures load { (told : _) → IsLoad result (OfDemo number) told }
    ensures kept { result ≢ Err LoadStop.Failed }
{
    let Ok(demo) = make_demo(alloc, number) else {
        return Err(LoadStop::Memory);
    };
    let Demo { load, script } = demo;
    match read_model(alloc, load.items()) {
        Ok(directory) => Ok(Start {
            directory,
            script: Some(script),
        }),
        Err(stop) => Err(stop),
    }
}

/// What a call begins with.
pub(crate) fn load<F: Shelf>(alloc: Global, shelf: &mut F, model: Model) -> Result<Start, LoadStop>
    requires { HasNumber model }
    ensures load { IsLoad result model (F.files shelf.old) }
    ensures files_stay { Stays (F.files shelf.old) (F.files shelf.new) }
    ensures puts_stay { Stays (F.puts shelf.old) (F.puts shelf.new) }
    ensures steady { result ≢ Err LoadStop.Failed → F.faults shelf.new ≡ F.faults shelf.old }
    ensures rose { result ≡ Err LoadStop.Failed → Rose (F.faults shelf.old) (F.faults shelf.new) }
{
    match model {
        Model::Empty => without_script(Ok(Directory::new(alloc))),
        Model::OfFile(name) => load_file(alloc, shelf, &name),
        Model::OfDemo(number) => load_demo(alloc, number),
    }
}
