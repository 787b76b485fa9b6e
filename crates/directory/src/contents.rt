ghost use Rattle.std.specs.Prelude.{◌≡◌, ◌<◌, [], ◌∷◌, None, length, slice_get, IfOk, IsSome};
ghost use Rattle.std.specs.Arc.{arc_value};
ghost use Rattle.std.specs.Option.{option_copied, option_map};
ghost use Rattle.std.specs.Map.Iter.{deref_pair};
ghost use Rattle.name_core.specs.declared.name.Name.{Name as Bytes};
ghost use Rattle.comb_tree.specs.Changes.{is_among};
ghost use Rattle.directory.specs.Keeping.{IsKept};
ghost use Rattle.directory.specs.Walks.{IsSound, object_of, most_objects};
ghost use Rattle.directory.specs.Closed.{IsRelaxing, depth_step};
ghost use Rattle.directory.specs.Depths.{depth_kept};
ghost use Rattle.directory.specs.Edits.{appended, put_fault, replaced, replace_fault, removed, remove_fault, renamed_all, rename_fault, without_all, references_of, judged, Makes};

use crate::depths::Depths;
use crate::fault::DirFault;
use crate::levels::judge;
use crate::limit::DEPTH;
use crate::relax::relax;
use memory_core::Memory;
use name_core::Name;
use object_pages::{NameSet, OBJECTS, ObjectPages};
use object_set::Object;
use std::alloc::Global;
use std::marker::Model;
use std::sync::Arc;

/// A sound list of named objects, with their depths. An edit makes new contents, which share what it did not touch, so one
/// that is refused leaves all as it was. Contracts see the list.
#[derive(Drop)]
pub(crate) struct Contents {
    list: ObjectPages,
    depths: Depths,
}

impl Model for Contents {
    ghost use Rattle.std.specs.Coded.{codes};
    ghost use Rattle.object_set.specs.contracts.object.Object as parts;
    ghost use Rattle.directory.specs.Walks.{Entries};
    ghost use Rattle.directory.specs.Keeping.{IsKept};

    ghost Value = { Entries };

    ghost coded = { Prim.hlevel (codes, parts.the_row.coded) };

    ghost view = { λ s. s.list };

    ghost invariant = { λ s. IsKept s.list s.depths };
}

/// A changed list, the depths of the list before, and the names that the edit touched.
#[derive(Drop)]
struct Edit {
    list: ObjectPages,
    depths: Depths,
    touched: NameSet,
}

impl Edit {
    /// Without a name, where it is there.
    fn without(self, alloc: Global, name: &Name) -> Result<Edit, Memory>
        requires { IsRelaxing self.list (depth_kept self.depths) self.touched [] }
        ensures list { IfOk result (λ e. e.list ≡ removed self.list name.now) }
        ensures begins { IfOk result (λ e. IsRelaxing e.list (depth_kept e.depths) e.touched []) }
    {
        let _count = self.list.len();
        if self.list.get(name).is_none() {
            return Ok(self);
        }
        let Edit {
            list,
            depths,
            mut touched,
        } = self;
        let list = list.remove(alloc, name)?;
        touched.insert(name)?;
        Ok(Edit {
            list,
            depths,
            touched,
        })
    }

    /// The contents of the changed list, where it may stand.
    fn settle(self, alloc: Global, edited: &Name) -> Result<Contents, DirFault>
        requires { IsRelaxing self.list (depth_kept self.depths) self.touched [] }
        ensures { Makes (judged self.list edited.now) self.list result }
    {
        let _count = self.list.len();
        let Edit {
            list,
            depths,
            touched,
        } = self;
        let Ok(relaxed) = relax(alloc, &list, depths, touched) else {
            return Err(DirFault::Memory);
        };
        match judge(relaxed.most, edited) {
            Some(fault) => Err(fault),
            None => Ok(Contents {
                list,
                depths: relaxed.depths,
            }),
        }
    }
}

/// The name alone.
fn only(alloc: Global, name: &Name) -> Result<NameSet, Memory>
    ensures { IfOk result (λ s. (x : Bytes) → is_among s x ≡ is_among (name.now ∷ []) x) }
{
    let mut names = NameSet::new(alloc);
    names.insert(name)?;
    Ok(names)
}

/// The edit that gave a name, which was not there, an object to which its members give this depth: the list with it, and the
/// depths of the list before. A solid lies as deep as what is not there. A combination that nothing refers to gets its depth
/// here, and else the name is to be looked at.
fn begun(
    alloc: Global,
    list: ObjectPages,
    depths: Depths,
    name: &Name,
    depth: u8,
) -> Result<Edit, Memory>
    requires begins { IsRelaxing list (depth_kept depths) (name.now ∷ []) [] }
    requires missed { depth_kept depths name.now ≡ 0 }
    requires due { depth ≡ depth_step list (depth_kept depths) name.now }
    ensures list { IfOk result (λ e. e.list ≡ list) }
    ensures begins { IfOk result (λ e. IsRelaxing e.list (depth_kept e.depths) e.touched []) }
{
    let mut users = NameSet::new(alloc);
    if depth == 0 {
        return Ok(Edit {
            list,
            depths,
            touched: users,
        });
    }
    list.put_users(name, &mut users)?;
    if users.len() > 0 || depth > DEPTH {
        let touched = only(alloc, name)?;
        return Ok(Edit {
            list,
            depths,
            touched,
        });
    }
    let depths = depths.set(alloc, name, depth)?;
    Ok(Edit {
        list,
        depths,
        touched: users,
    })
}

impl Contents {
    /// No objects. It takes no memory.
    pub(crate) fn new(alloc: Global) -> Contents
        ensures { result ≡ [] }
    {
        Contents {
            list: ObjectPages::new(alloc),
            depths: Depths::new(alloc),
        }
    }

    /// The contents of these parts.
    pub(crate) fn of_parts(list: ObjectPages, depths: Depths) -> Contents
        requires { IsKept list depths }
        ensures { result ≡ list }
    {
        Contents { list, depths }
    }

    /// The number of objects.
    pub(crate) fn len(&self) -> usize
        ensures value { result ≡ length self.now }
        ensures sound { IsSound self.now }
    {
        self.list.len()
    }

    /// Lends the name and the object at the place, counted from 0, or `None` exactly past the end.
    pub(crate) fn at(&self, place: usize) -> Option<(&Name, &Object)>
        ensures { option_map deref_pair result ≡ slice_get self.now place }
    {
        self.list.at(place)
    }

    /// Lends the object of this name, or `None` exactly where it is not there.
    pub(crate) fn get(&self, name: &Name) -> Option<&Object>
        ensures { option_copied result ≡ object_of self.now name.now }
    {
        self.list.get(name)
    }

    /// The number of leaves that name it.
    pub(crate) fn references(&self, name: &Name) -> u64
        ensures { result ≡ references_of self.now name.now }
    {
        self.list.references(name)
    }

    /// A pair more at the end.
    fn append(&self, alloc: Global, name: &Name, object: Arc<Object>) -> Result<Edit, Memory>
        requires absent { object_of self.now name.now ≡ None }
        requires room { length self.now < most_objects }
        ensures list { IfOk result (λ e. e.list ≡ appended self.now name.now (arc_value object)) }
        ensures begins { IfOk result (λ e. IsRelaxing e.list (depth_kept e.depths) e.touched []) }
    {
        let depth = self.depths.over(&object);
        let list = self.list.copy()?.append(alloc, name, object)?;
        let depths = self.depths.copy()?;
        begun(alloc, list, depths, name, depth)
    }

    /// With a pair more at the end.
    pub(crate) fn put(
        &self,
        alloc: Global,
        name: &Name,
        object: Arc<Object>,
    ) -> Result<Contents, DirFault>
        ensures { Makes (put_fault self.now name.now (arc_value object)) (appended self.now name.now (arc_value object)) result }
    {
        if self.list.get(name).is_some() {
            return Err(DirFault::Exists);
        }
        if self.list.len() >= OBJECTS {
            return Err(DirFault::Full);
        }
        match self.append(alloc, name, object) {
            Ok(edit) => edit.settle(alloc, name),
            Err(_) => Err(DirFault::Memory),
        }
    }

    /// Another object of a name that is there.
    fn exchange(&self, alloc: Global, name: &Name, object: Object) -> Result<Edit, Memory>
        requires { IsSome (object_of self.now name.now) }
        ensures list { IfOk result (λ e. e.list ≡ replaced self.now name.now object) }
        ensures begins { IfOk result (λ e. IsRelaxing e.list (depth_kept e.depths) e.touched []) }
    {
        let list = self.list.copy()?.replace(alloc, name, object)?;
        let depths = self.depths.copy()?;
        let touched = only(alloc, name)?;
        Ok(Edit {
            list,
            depths,
            touched,
        })
    }

    /// With another object of a name, in its place.
    pub(crate) fn replace(
        &self,
        alloc: Global,
        name: &Name,
        object: Object,
    ) -> Result<Contents, DirFault>
        ensures { Makes (replace_fault self.now name.now object) (replaced self.now name.now object) result }
    {
        if self.list.get(name).is_none() {
            return Err(DirFault::Missing);
        }
        match self.exchange(alloc, name, object) {
            Ok(edit) => edit.settle(alloc, name),
            Err(_) => Err(DirFault::Memory),
        }
    }

    /// As they are, to be changed.
    fn begin(&self, alloc: Global) -> Result<Edit, Memory>
        ensures list { IfOk result (λ e. e.list ≡ self.now) }
        ensures begins { IfOk result (λ e. IsRelaxing e.list (depth_kept e.depths) e.touched []) }
    {
        let list = self.list.copy()?;
        let depths = self.depths.copy()?;
        Ok(Edit {
            list,
            depths,
            touched: NameSet::new(alloc),
        })
    }

    /// Without one name that is there.
    fn take_out(&self, alloc: Global, name: &Name) -> Result<Edit, Memory>
        ensures list { IfOk result (λ e. e.list ≡ removed self.now name.now) }
        ensures begins { IfOk result (λ e. IsRelaxing e.list (depth_kept e.depths) e.touched []) }
    {
        self.begin(alloc)?.without(alloc, name)
    }

    /// Without a name and its object.
    pub(crate) fn remove(&self, alloc: Global, name: &Name) -> Result<Contents, DirFault>
        ensures { Makes (remove_fault self.now name.now) (removed self.now name.now) result }
    {
        if self.list.get(name).is_none() {
            return Err(DirFault::Missing);
        }
        match self.take_out(alloc, name) {
            Ok(edit) => edit.settle(alloc, name),
            Err(_) => Err(DirFault::Memory),
        }
    }

    /// A new name for an object that is there, and in every leaf that names it.
    fn rename_there(&self, alloc: Global, old: &Name, new: &Name) -> Result<Edit, Memory>
        requires there { IsSome (object_of self.now old.now) }
        requires absent { object_of self.now new.now ≡ None }
        ensures list { IfOk result (λ e. e.list ≡ renamed_all self.now old.now new.now) }
        ensures begins { IfOk result (λ e. IsRelaxing e.list (depth_kept e.depths) e.touched []) }
    {
        let list = self.list.copy()?.rename(alloc, old, new)?;
        let depths = self.depths.copy()?.rename(alloc, old, new)?;
        let mut touched = NameSet::new(alloc);
        list.put_users(new, &mut touched)?;
        Ok(Edit {
            list,
            depths,
            touched,
        })
    }

    /// With a new name for an object and in every leaf that names it.
    pub(crate) fn rename(&self, alloc: Global, old: &Name, new: &Name) -> Result<Contents, DirFault>
        ensures { Makes (rename_fault self.now old.now new.now) (renamed_all self.now old.now new.now) result }
    {
        if self.list.get(new).is_some() {
            return Err(DirFault::Exists);
        }
        if self.list.get(old).is_none() {
            return Err(DirFault::Missing);
        }
        match self.rename_there(alloc, old, new) {
            Ok(edit) => edit.settle(alloc, new),
            Err(_) => Err(DirFault::Memory),
        }
    }

    /// Without the pairs of the names, of which some may be missing or repeated.
    pub(crate) fn remove_all(&self, alloc: Global, names: &[Name]) -> Result<Contents, Memory>
        ensures { IfOk result (λ c. c ≡ without_all self.now names.now) }
    {
        let _count = self.list.len();
        let mut edit = self.begin(alloc)?;
        for name in names {
            edit = edit.without(alloc, name)?;
        }
        let Edit {
            list,
            depths,
            touched,
        } = edit;
        let relaxed = relax(alloc, &list, depths, touched)?;
        Ok(Contents {
            list,
            depths: relaxed.depths,
        })
    }
}
