ghost use Rattle.std.specs.Prelude.{◌≡◌, ◌<◌, ◌≤◌, [], None, Some, true, length, slice_get, IfOk, OnOk, IsSome};
ghost use Rattle.std.specs.Arc.{arc_value};
ghost use Rattle.std.specs.Option.{option_copied, option_map};
ghost use Rattle.std.specs.List.{IsDistinct};
ghost use Rattle.std.specs.Map.{keys_of};
ghost use Rattle.std.specs.Map.Iter.{deref_pair};
ghost use Rattle.name_core.specs.declared.name.Name.{Name as Bytes};
ghost use Rattle.name_core.specs.Same.{same_name};
ghost use Rattle.comb_tree.specs.Changes.{is_among};
ghost use Rattle.shared_pages.specs.Buckets.{value_of};
ghost use Rattle.shared_pages.specs.Pages.{page_of, pairs_of};
ghost use Rattle.object_pages.specs.Entries.{object_of, members_of, most_objects, AreFew, HoldsUsers};
ghost use Rattle.object_pages.specs.Changes.{appended, replaced, removed, renamed_all, references_of};
ghost use Rattle.object_pages.specs.Keeping.{AreCounted};
ghost use Rattle.object_pages.specs.Members.{node_names};
ghost use Rattle.object_pages.specs.Tallies.{Exchanges};

use crate::members::nodes_of;
use crate::name_set::NameSet;
use crate::references::References;
use crate::renaming::rename_pages;
use crate::users::put_all_users;
use comb_tree::CombNode;
use memory_core::Memory;
use name_core::Name;
use object_set::Object;
use shared_pages::{PageList, SharedMap};
use std::alloc::Global;
use std::marker::Model;
use std::sync::Arc;

/// The number of the page that is kept for the name.
fn number_of(places: &SharedMap<u64>, name: &Name) -> u64
    requires { IsSome (value_of places.now name.now) }
    ensures { value_of places.now name.now ≡ Some result }
{
    match places.get(name) {
        Some(page) => *page,
        None => unreachable!(),
    }
}

/// The counts after the nodes of the name's object, which stands on the page, gave way to others.
fn exchange_members(
    alloc: Global,
    references: References,
    pages: &PageList<Object>,
    page: u64,
    name: &Name,
    after: &[CombNode],
) -> Result<References, Memory>
    requires there { IsSome (object_of (page_of pages.now page) name.now) }
    requires counted { AreCounted pages.now references }
    requires small { length (pairs_of pages.now) ≤ most_objects }
    requires few { AreFew (pairs_of pages.now) }
    requires few_after { length (node_names after.now) ≤ 4096 }
    ensures { IfOk result (Exchanges page (members_of (object_of (page_of pages.now page) name.now)) (node_names after.now) references) }
{
    match pages.page(page) {
        Some(pairs) => match pairs.get(name) {
            Some(old) => references.exchange(alloc, page, nodes_of(old), after),
            None => unreachable!(),
        },
        None => unreachable!(),
    }
}

/// A list of named objects, in order, on pages of 1 to 8 of them. A copy shares all pages. No name stands twice, and there
/// are at most 65,535 objects; members may be missing, and what refers to what is not judged here. Beside the pages stand,
/// shared as they are, the page of each name and the number of leaves on each page that name it. Contracts see the list.
#[derive(Drop)]
pub struct ObjectPages {
    pages: PageList<Object>,
    /// The number of the page on which each name stands.
    places: SharedMap<u64>,
    references: References,
}

impl Model for ObjectPages {
    ghost use Rattle.std.specs.Coded.{codes};
    ghost use Rattle.object_set.specs.contracts.object.Object as parts;
    ghost use Rattle.shared_pages.specs.Pages.{pairs_of};
    ghost use Rattle.object_pages.specs.Entries.{Entries};
    ghost use Rattle.object_pages.specs.Keeping.{IsListed};

    ghost Value = { Entries };

    ghost coded = { Prim.hlevel (codes, parts.the_row.coded) };

    ghost view = { λ s. pairs_of s.pages };

    ghost invariant = { λ s. IsListed s.pages s.places s.references };
}

impl ObjectPages {
    /// No objects. It takes no memory.
    pub fn new(alloc: Global) -> ObjectPages
        ensures { result ≡ [] }
    {
        ObjectPages {
            pages: PageList::new(alloc),
            places: SharedMap::new(alloc),
            references: References::new(alloc),
        }
    }

    /// The number of objects.
    pub fn len(&self) -> usize
        ensures value { result ≡ length self.now }
        ensures small { length self.now ≤ most_objects }
        ensures few { AreFew self.now }
        ensures distinct { IsDistinct same_name (keys_of self.now) }
    {
        self.pages.len()
    }

    /// Lends the name and the object at the place, counted from 0, or `None` exactly past the end.
    pub fn at(&self, place: usize) -> Option<(&Name, &Object)>
        ensures { option_map deref_pair result ≡ slice_get self.now place }
    {
        self.pages.at(place)
    }

    /// Lends the object of this name, or `None` exactly where it is not there.
    pub fn get(&self, name: &Name) -> Option<&Object>
        ensures { option_copied result ≡ object_of self.now name.now }
    {
        let _count = self.pages.len();
        match self.places.get(name) {
            Some(page) => match self.pages.page(*page) {
                Some(pairs) => pairs.get(name),
                None => None,
            },
            None => None,
        }
    }

    /// The number of leaves of all combinations that name it. It takes no memory.
    pub fn references(&self, name: &Name) -> u64
        ensures { result ≡ references_of self.now name.now }
    {
        let _count = self.pages.len();
        match self.references.tally(name) {
            Some(tally) => {
                let _count = tally.len();
                tally.total()
            }
            None => 0,
        }
    }

    /// Puts the names of all objects that refer to the name among the names.
    pub fn put_users(&self, name: &Name, names: &mut NameSet) -> Result<(), Memory>
        ensures users { OnOk result (HoldsUsers self.now name.now names.new) }
        ensures kept { OnOk result ((x : Bytes) → is_among names.old x ≡ true → is_among names.new x ≡ true) }
    {
        let _count = self.pages.len();
        match self.references.tally(name) {
            Some(tally) => put_all_users(&self.pages, tally, name, names),
            None => Ok(()),
        }
    }

    /// The same list again. It shares all pages.
    pub fn copy(&self) -> Result<ObjectPages, Memory>
        ensures { IfOk result (λ l. l ≡ self.now) }
    {
        let pages = self.pages.copy()?;
        let places = self.places.copy()?;
        let references = self.references.copy()?;
        Ok(ObjectPages {
            pages,
            places,
            references,
        })
    }

    /// The list with a pair more at the end. What other lists share stays as it is there, as at all that follow.
    pub fn append(
        self,
        alloc: Global,
        name: &Name,
        object: Arc<Object>,
    ) -> Result<ObjectPages, Memory>
        requires absent { object_of self name.now ≡ None }
        requires room { length self < most_objects }
        ensures { IfOk result (λ l. l ≡ appended self name.now (arc_value object)) }
    {
        let _count = self.pages.len();
        let ObjectPages {
            pages,
            places,
            references,
        } = self;
        let again = object.clone()?;
        let (pages, page) = pages.push(alloc, name, object)?;
        let places = places.put(alloc, name, page)?;
        let references = references.exchange(alloc, page, &[], nodes_of(&again))?;
        Ok(ObjectPages {
            pages,
            places,
            references,
        })
    }

    /// The list with another object of a name that is there, in its place.
    pub fn replace(self, alloc: Global, name: &Name, object: Object) -> Result<ObjectPages, Memory>
        requires { IsSome (object_of self name.now) }
        ensures { IfOk result (λ l. l ≡ replaced self name.now object) }
    {
        let _count = self.pages.len();
        let ObjectPages {
            pages,
            places,
            references,
        } = self;
        let page = number_of(&places, name);
        let references = exchange_members(
            alloc,
            references,
            &pages,
            page,
            name,
            nodes_of(&object),
        )?;
        let share = Arc::new(alloc, object)?;
        let pages = pages.with(alloc, page, name, share)?;
        Ok(ObjectPages {
            pages,
            places,
            references,
        })
    }

    /// The list without a name that is there.
    pub fn remove(self, alloc: Global, name: &Name) -> Result<ObjectPages, Memory>
        requires { IsSome (object_of self name.now) }
        ensures { IfOk result (λ l. l ≡ removed self name.now) }
    {
        let _count = self.pages.len();
        let ObjectPages {
            pages,
            places,
            references,
        } = self;
        let page = number_of(&places, name);
        let references = exchange_members(alloc, references, &pages, page, name, &[])?;
        let pages = pages.without(alloc, page, name)?;
        let places = places.remove(alloc, name)?;
        Ok(ObjectPages {
            pages,
            places,
            references,
        })
    }

    /// The list in which a name that is there, and every leaf that names it, has a new name that is not there.
    pub fn rename(self, alloc: Global, old: &Name, new: &Name) -> Result<ObjectPages, Memory>
        requires there { IsSome (object_of self old.now) }
        requires absent { object_of self new.now ≡ None }
        ensures { IfOk result (λ l. l ≡ renamed_all self old.now new.now) }
    {
        let _count = self.pages.len();
        let ObjectPages {
            pages,
            places,
            references,
        } = self;
        let page = number_of(&places, old);
        let pages = rename_pages(alloc, pages, page, references.tally(old), old, new)?;
        let references = references.rename(alloc, old, new)?;
        let places = places.remove(alloc, old)?.put(alloc, new, page)?;
        Ok(ObjectPages {
            pages,
            places,
            references,
        })
    }
}
