use crate::directory::Directory;
use crate::fault::DirFault;
use crate::gathered::Gathered;
use crate::settling::{gather, settle_pairs};
use memory_core::Memory;
use name_core::Name;
use object_set::Object;
use std::alloc::Global;
use std::marker::Model;
use thiserror::Error;

/// Why there is no directory of a draft.
#[derive(Clone, Copy, Debug, PartialEq, Eq, Error)]
pub enum DraftFault {
    /// The first object, by its place from 0, that may not be put behind those before it.
    #[error("object {place}: {fault}")]
    At { place: u32, fault: DirFault },
    /// There was no memory.
    #[error("out of memory")]
    Memory,
}

impl From<Memory> for DraftFault {
    ghost use Rattle.std.specs.Prelude.{◌≡◌};
    ghost use Rattle.directory.specs.declared.draft.DraftFault.TheVariants as faults;

    ghost from_gives = { λ _ e. e ≡ faults.Memory };

    fn from(_error: Memory) -> DraftFault {
        DraftFault::Memory
    }
}

/// A directory that is being gathered: a title and a list of named objects, in order. No name stands twice, and there are
/// at most 65,535 objects. Cycles and depth are looked for when it is settled, so objects may come in any order at no more
/// cost. Contracts see the title and the list.
#[derive(Drop)]
pub struct Draft {
    title: Vec<u8>,
    objects: Gathered,
}

impl Model for Draft {
    ghost use Rattle.std.specs.Coded.{codes};
    ghost use Rattle.object_set.specs.contracts.object.Object as parts;
    ghost use Rattle.directory.specs.Listing.{Listing};
    ghost use Rattle.directory.specs.Keeping.{IsGathered};

    ghost Value = { Listing };

    ghost coded = { Prim.hlevel (codes, parts.the_row.coded) };

    ghost view = { λ s. record { title = s.title.items; objects = s.objects } };

    ghost invariant = { λ s. IsGathered s.title.items s.objects };
}

impl Draft {
    ghost use Rattle.std.specs.Prelude.{◌≡◌, ◌≤◌, [], length, OnOk, OnErr};
    ghost use Rattle.std.specs.Option.{option_copied};
    ghost use Rattle.std.specs.List.{IsDistinct};
    ghost use Rattle.std.specs.Map.{keys_of};
    ghost use Rattle.name_core.specs.Same.{same_name};
    ghost use Rattle.object_set.specs.TextValues.{IsTextValue};
    ghost use Rattle.directory.specs.Drafts.{gather_fault, SettlesTo};
    ghost use Rattle.directory.specs.Edits.{appended, Follows};
    ghost use Rattle.directory.specs.Walks.{object_of, most_objects};

    /// An empty draft with an empty title. It takes no memory.
    pub fn new(alloc: Global) -> Draft
        ensures title { result.title ≡ [] }
        ensures objects { result.objects ≡ [] }
    {
        Draft {
            title: Vec::new(alloc),
            objects: Gathered::new(alloc),
        }
    }

    /// The number of objects.
    pub fn len(&self) -> u32
        ensures value { result ≡ length self.now.objects }
        ensures small { length self.now.objects ≤ most_objects }
        ensures distinct { IsDistinct same_name (keys_of self.now.objects) }
    {
        self.objects.len() as u32
    }

    /// The object of this name, or `None` exactly where it is not there.
    pub fn get(&self, name: &Name) -> Option<&Object>
        ensures { option_copied result ≡ object_of self.now.objects name.now }
    {
        self.objects.get(name)
    }

    /// Replaces the title by a text that can be one. After an `Err` it is as before.
    pub fn set_title(&mut self, alloc: Global, text: &[u8]) -> Result<(), Memory>
        requires { IsTextValue text.now }
        ensures ok { OnOk result (self.new.title ≡ text.now) }
        ensures err { OnErr result (self.new.title ≡ self.old.title) }
        ensures objects { self.new.objects ≡ self.old.objects }
    {
        let title = Vec::from_slice(alloc, text)?;
        self.title = title;
        Ok(())
    }

    /// Adds an object under a new name, at the end. `Exists`, then `Full`.
    pub fn put(&mut self, name: &Name, object: Object) -> Result<(), DirFault>
        ensures exact { Follows self.old.objects (gather_fault self.old.objects name.now) (appended self.old.objects name.now object) result self.new.objects }
        ensures title { self.new.title ≡ self.old.title }
    {
        gather(&mut self.objects, name, object)
    }

    /// The directory of this title and list, or the first object that `Directory::put` would refuse if it put them one by
    /// one, and for what.
    pub fn settle(self, alloc: Global) -> Result<Directory, DraftFault>
        ensures { SettlesTo self result }
    {
        let Draft { title, objects } = self;
        let contents = settle_pairs(alloc, objects)?;
        Ok(Directory::of_parts(alloc, title, contents)?)
    }
}
