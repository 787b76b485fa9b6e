use crate::contents::Contents;
use crate::fault::DirFault;
use memory_core::Memory;
use name_core::Name;
use object_set::Object;
use std::alloc::Global;
use std::marker::Model;
use std::sync::Arc;

/// A title and a list of named objects, in order. No name stands twice, no combination is its own member, directly or
/// through others, at most 16 combinations lie one in the other, and there are at most 65,535 objects. Names that are
/// not there may be members. A copy shares the objects, and an edit of it copies what it touches. Contracts see the title
/// and the list.
#[derive(Drop)]
pub struct Directory {
    title: Vec<u8>,
    /// What copies share whole until one of them is edited. An empty directory may have none.
    contents: Option<Arc<Contents>>,
    /// Where edits take their memory.
    alloc: Global,
}

impl Model for Directory {
    ghost use Rattle.std.specs.Prelude.{[], unwrap_or};
    ghost use Rattle.std.specs.Arc.{arc_value};
    ghost use Rattle.std.specs.Option.{option_map};
    ghost use Rattle.std.specs.Coded.{codes};
    ghost use Rattle.object_set.specs.contracts.object.Object as parts;
    ghost use Rattle.object_set.specs.TextValues.{IsTextValue};
    ghost use Rattle.directory.specs.Listing.{Listing};

    ghost Value = { Listing };

    ghost coded = { Prim.hlevel (codes, parts.the_row.coded) };

    ghost view = { λ s. record { title = s.title.items; objects = unwrap_or (option_map arc_value s.contents) [] } };

    ghost invariant = { λ s. IsTextValue s.title.items };
}

impl Directory {
    ghost use Rattle.std.specs.Prelude.{◌≡◌, [], length, slice_get, IfOk, OnOk, OnErr};
    ghost use Rattle.std.specs.Arc.{arc_value};
    ghost use Rattle.std.specs.Option.{option_copied, option_map};
    ghost use Rattle.std.specs.Map.Iter.{deref_pair};
    ghost use Rattle.object_set.specs.TextValues.{IsTextValue};
    ghost use Rattle.directory.specs.Walks.{IsSound, object_of};
    ghost use Rattle.directory.specs.Edits.{appended, put_fault, replaced, replace_fault, removed, remove_fault, renamed_all, rename_fault, without_all, references_of, Follows, Tells};

    /// An empty directory with an empty title. It takes no memory.
    pub fn new(alloc: Global) -> Directory
        ensures title { result.title ≡ [] }
        ensures objects { result.objects ≡ [] }
    {
        Directory {
            title: Vec::new(alloc),
            contents: None,
            alloc,
        }
    }

    /// The directory of these parts.
    pub(crate) fn of_parts(
        alloc: Global,
        title: Vec<u8>,
        contents: Contents,
    ) -> Result<Directory, Memory>
        requires { IsTextValue title.items }
        ensures title { IfOk result (λ d. d.title ≡ title.items) }
        ensures objects { IfOk result (λ d. d.objects ≡ contents) }
    {
        let contents = Arc::new(alloc, contents)?;
        Ok(Directory {
            title,
            contents: Some(contents),
            alloc,
        })
    }

    /// A share of the contents.
    fn contents(&self) -> Result<Arc<Contents>, Memory>
        ensures { IfOk result (λ c. arc_value c ≡ self.now.objects) }
    {
        match &self.contents {
            Some(contents) => Ok(contents.clone()?),
            None => Ok(Arc::new(self.alloc, Contents::new(self.alloc))?),
        }
    }

    /// Puts other contents in place.
    fn set_contents(&mut self, contents: Contents) -> Result<(), Memory>
        ensures ok { OnOk result (self.new.objects ≡ contents) }
        ensures err { OnErr result (self.new.objects ≡ self.old.objects) }
        ensures title { self.new.title ≡ self.old.title }
    {
        let contents = Arc::new(self.alloc, contents)?;
        self.contents = Some(contents);
        Ok(())
    }

    /// Lends the title.
    pub fn title(&self) -> &[u8]
        ensures value { result.now ≡ self.now.title }
        ensures text { IsTextValue result.now }
    {
        &self.title
    }

    /// The number of objects.
    pub fn len(&self) -> u32
        ensures value { result ≡ length self.now.objects }
        ensures sound { IsSound self.now.objects }
    {
        match &self.contents {
            Some(contents) => contents.len() as u32,
            None => 0,
        }
    }

    /// The name and the object at the place, counted from 0, or `None` exactly past the end.
    pub fn at(&self, place: u32) -> Option<(&Name, &Object)>
        ensures { option_map deref_pair result ≡ slice_get self.now.objects place }
    {
        match &self.contents {
            Some(contents) => contents.at(place as usize),
            None => None,
        }
    }

    /// The object of this name, or `None` exactly where it is not there.
    pub fn get(&self, name: &Name) -> Option<&Object>
        ensures { option_copied result ≡ object_of self.now.objects name.now }
    {
        match &self.contents {
            Some(contents) => contents.get(name),
            None => None,
        }
    }

    /// Adds an object under a new name, at the end. `Exists`, `Full`, then `Cycle` and `Deep` of the list with it.
    pub fn put(&mut self, name: &Name, object: Object) -> Result<(), DirFault>
        ensures exact { Follows self.old.objects (put_fault self.old.objects name.now object) (appended self.old.objects name.now object) result self.new.objects }

        // After `Cycle` and `Deep` the list would have that cycle or that depth, and else it would be sound.
        ensures means { Tells (appended self.old.objects name.now object) name.now result }
        ensures title { self.new.title ≡ self.old.title }
    {
        let Ok(object) = Arc::new(self.alloc, object) else {
            return Err(DirFault::Memory);
        };
        self.put_shared(name, object)
    }

    /// Adds a shared object under a new name, at the end, as `put` does with one of its own. The directory shares it from then
    /// on.
    pub fn put_shared(&mut self, name: &Name, object: Arc<Object>) -> Result<(), DirFault>
        ensures exact { Follows self.old.objects (put_fault self.old.objects name.now (arc_value object)) (appended self.old.objects name.now (arc_value object)) result self.new.objects }
        ensures means { Tells (appended self.old.objects name.now (arc_value object)) name.now result }
        ensures title { self.new.title ≡ self.old.title }
    {
        let _count = self.len();
        let contents = self.contents()?.put(self.alloc, name, object)?;
        self.set_contents(contents)?;
        Ok(())
    }

    /// Replaces the object of a name, in its place. `Missing`, then `Cycle` and `Deep` of the list with the new object.
    pub fn replace(&mut self, name: &Name, object: Object) -> Result<(), DirFault>
        ensures exact { Follows self.old.objects (replace_fault self.old.objects name.now object) (replaced self.old.objects name.now object) result self.new.objects }
        ensures means { Tells (replaced self.old.objects name.now object) name.now result }
        ensures title { self.new.title ≡ self.old.title }
    {
        let _count = self.len();
        let contents = self.contents()?.replace(self.alloc, name, object)?;
        self.set_contents(contents)?;
        Ok(())
    }

    /// Takes a name and its object out. `Missing` is the only fault beside want of memory.
    pub fn remove(&mut self, name: &Name) -> Result<(), DirFault>
        ensures exact { Follows self.old.objects (remove_fault self.old.objects name.now) (removed self.old.objects name.now) result self.new.objects }
        ensures means { Tells (removed self.old.objects name.now) name.now result }
        ensures title { self.new.title ≡ self.old.title }
    {
        let _count = self.len();
        let contents = self.contents()?.remove(self.alloc, name)?;
        self.set_contents(contents)?;
        Ok(())
    }

    /// Gives an object and every leaf that names it a new name, all in their places. `Exists` for the new name, `Missing`
    /// for the old one, then `Cycle` and `Deep` of the renamed list.
    pub fn rename_all(&mut self, alloc: Global, old: &Name, new: &Name) -> Result<(), DirFault>
        ensures exact { Follows self.old.objects (rename_fault self.old.objects old.now new.now) (renamed_all self.old.objects old.now new.now) result self.new.objects }
        ensures means { Tells (renamed_all self.old.objects old.now new.now) new.now result }
        ensures title { self.new.title ≡ self.old.title }
    {
        let _count = self.len();
        let contents = self.contents()?.rename(alloc, old, new)?;
        self.set_contents(contents)?;
        Ok(())
    }

    /// Replaces the title by a text that can be one. After an `Err` it is as before.
    pub fn set_title(&mut self, alloc: Global, text: &[u8]) -> Result<(), Memory>
        requires { IsTextValue text.now }
        ensures ok { OnOk result (self.new.title ≡ text.now) }
        ensures err { OnErr result (self.new.title ≡ self.old.title) }
        ensures objects { self.new.objects ≡ self.old.objects }
    {
        let title = Vec::from_slice(alloc, text)?;
        self.title = title;
        Ok(())
    }

    /// Takes out every pair whose name is among the names, of which some may be missing or repeated. After an `Err` the
    /// directory is as before.
    pub fn remove_all(&mut self, alloc: Global, names: &[Name]) -> Result<(), Memory>
        ensures ok { OnOk result (self.new.objects ≡ without_all self.old.objects names.now) }
        ensures err { OnErr result (self.new.objects ≡ self.old.objects) }
        ensures title { self.new.title ≡ self.old.title }
    {
        let contents = self.contents()?.remove_all(alloc, names)?;
        self.set_contents(contents)
    }

    /// The same directory again.
    pub fn copy(&self, alloc: Global) -> Result<Directory, Memory>
        ensures { IfOk result (λ d. d ≡ self.now) }
    {
        let title = Vec::from_slice(alloc, &self.title)?;
        let contents = match &self.contents {
            Some(contents) => Some(contents.clone()?),
            None => None,
        };
        Ok(Directory {
            title,
            contents,
            alloc,
        })
    }

    /// The number of leaves of all combinations that name it. It takes no memory.
    pub fn references(&self, name: &Name) -> u64
        ensures { result ≡ references_of self.now.objects name.now }
    {
        match &self.contents {
            Some(contents) => contents.references(name),
            None => 0,
        }
    }
}
