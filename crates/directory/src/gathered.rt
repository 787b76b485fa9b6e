ghost use Rattle.std.specs.Prelude.{◌≡◌, None, [], length, slice_get, position, OnOk, OnErr, IfOk};
ghost use Rattle.std.specs.Option.{option_copied, option_map};
ghost use Rattle.std.specs.List.{IsDistinct};
ghost use Rattle.std.specs.Map.{keys_of};
ghost use Rattle.std.specs.Map.Iter.{deref_pair};
ghost use Rattle.std.specs.Arc.{arc_value};
ghost use Rattle.name_core.specs.Same.{same_name};
ghost use Rattle.directory.specs.Edits.{appended};
ghost use Rattle.directory.specs.Walks.{object_of};

use indexmap::IndexMap;
use memory_core::Memory;
use name_core::Name;
use object_set::Object;
use std::alloc::Global;
use std::marker::Model;
use std::sync::Arc;

/// Named objects in order, by name and by place. No name stands twice. The objects stand apart, so that none moves when there
/// are more, and a directory shares them. Contracts see the names and the objects.
#[derive(Drop)]
pub(crate) struct Gathered {
    alloc: Global,
    entries: IndexMap<Name, Arc<Object>>,
}

impl Model for Gathered {
    ghost use Rattle.std.specs.Coded.{codes};
    ghost use Rattle.object_set.specs.contracts.object.Object as parts;
    ghost use Rattle.shared_pages.specs.Sharing.{values_shared};
    ghost use Rattle.directory.specs.Walks.{Entries};

    ghost Value = { Entries };

    ghost coded = { Prim.hlevel (codes, parts.the_row.coded) };

    ghost view = { λ s. values_shared s.entries.entries };
}

impl Gathered {
    /// No objects. It takes no memory.
    pub(crate) fn new(alloc: Global) -> Gathered
        ensures { result ≡ [] }
    {
        Gathered {
            alloc,
            entries: IndexMap::new(alloc),
        }
    }

    /// The number of objects.
    pub(crate) fn len(&self) -> usize
        ensures value { result ≡ length self.now }
        ensures distinct { IsDistinct same_name (keys_of self.now) }
    {
        self.entries.len()
    }

    /// Lends the object of the name, or `None` exactly where it is not there.
    pub(crate) fn get(&self, name: &Name) -> Option<&Object>
        ensures { option_copied result ≡ object_of self.now name.now }
    {
        match self.entries.get(name) {
            Some(object) => Some(&**object),
            None => None,
        }
    }

    /// The place of the name, counted from 0, or `None` exactly where it is not there.
    pub(crate) fn place_of(&self, name: &Name) -> Option<usize>
        ensures place { result ≡ position (same_name name.now) (keys_of self.now) }
        ensures missing { result ≡ None → object_of self.now name.now ≡ None }
    {
        self.entries.get_index_of(name)
    }

    /// Lends the name and the object at the place, counted from 0, or `None` exactly past the end.
    pub(crate) fn at(&self, place: usize) -> Option<(&Name, &Object)>
        ensures { option_map deref_pair result ≡ slice_get self.now place }
    {
        match self.entries.get_index(place) {
            Some((name, object)) => Some((name, &**object)),
            None => None,
        }
    }

    /// Lends the name at the place, with another share of the object, or `None` exactly past the end.
    pub(crate) fn share_at(&self, place: usize) -> Result<Option<(&Name, Arc<Object>)>, Memory>
        ensures { IfOk result (λ r. option_map (λ e. (e.0.now, arc_value e.1)) r ≡ slice_get self.now place) }
    {
        match self.entries.get_index(place) {
            Some((name, object)) => {
                let share = Arc::try_clone(object)?;
                Ok(Some((name, share)))
            }
            None => Ok(None),
        }
    }

    /// Puts an object with a new name at the end. After an `Err`, which is want of memory, all is as before.
    pub(crate) fn push(&mut self, name: &Name, object: Object) -> Result<(), Memory>
        requires { object_of self.old name.now ≡ None }
        ensures ok { OnOk result (self.new ≡ appended self.old name.now object) }
        ensures err { OnErr result (self.new ≡ self.old) }
    {
        let share = Arc::new(self.alloc, object)?;
        let _old = self.entries.insert(*name, share)?;
        Ok(())
    }
}
