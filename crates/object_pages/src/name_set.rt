ghost use Rattle.std.specs.Prelude.{◌≡◌, ◌||◌, [], None, Some, length, slice_get, OnOk, OnErr};
ghost use Rattle.std.specs.Option.{option_copied};
ghost use Rattle.std.specs.List.{IsDistinct};
ghost use Rattle.indexmap.specs.IndexSet.{insert_key};
ghost use Rattle.name_core.specs.declared.name.Name.{Name as Bytes};
ghost use Rattle.name_core.specs.Same.{same_name};
ghost use Rattle.comb_tree.specs.Changes.{is_among};

use indexmap::IndexSet;
use memory_core::Memory;
use name_core::Name;
use std::alloc::Global;
use std::marker::Model;

/// Names, each once, in the order in which they were put in. Contracts see them as that list.
#[derive(Drop)]
pub struct NameSet {
    /// It takes no memory, and most sets have no other name.
    first: Option<Name>,
    rest: IndexSet<Name>,
}

impl Model for NameSet {
    ghost use Rattle.std.specs.Prelude.{List};
    ghost use Rattle.name_core.specs.declared.name.Name.{Name as Bytes};
    ghost use Rattle.std.specs.List.{cons_option};
    ghost use Rattle.object_pages.specs.Members.{AreApart};

    ghost Value = { List Bytes };

    ghost view = { λ s. cons_option s.first s.rest.keys };

    ghost invariant = { λ s. AreApart s.first s.rest.keys };
}

impl NameSet {
    /// No names. It takes no memory until a second one is put in.
    pub fn new(alloc: Global) -> NameSet
        ensures { result ≡ [] }
    {
        NameSet {
            first: None,
            rest: IndexSet::new(alloc),
        }
    }

    /// The number of names.
    pub fn len(&self) -> usize
        ensures value { result ≡ length self.now }
        ensures distinct { IsDistinct same_name self.now }
    {
        match self.first {
            Some(_) => self.rest.len() + 1,
            None => 0,
        }
    }

    /// Lends the name at the place, counted from 0, or `None` exactly past the end.
    pub fn at(&self, place: usize) -> Option<&Name>
        ensures { option_copied result ≡ slice_get self.now place }
    {
        match &self.first {
            Some(first) if place == 0 => Some(first),
            Some(_) => self.rest.get_index(place - 1),
            None => None,
        }
    }

    /// Puts a name in, at the end, where it is not there.
    pub fn insert(&mut self, name: &Name) -> Result<(), Memory>
        ensures ok { OnOk result (self.new ≡ insert_key same_name self.old name.now) }
        ensures members { OnOk result ((x : Bytes) → is_among self.new x ≡ (same_name x name.now || is_among self.old x)) }
        ensures err { OnErr result (self.new ≡ self.old) }
    {
        match self.first {
            Some(first) => {
                if first != *name {
                    let _added = self.rest.insert(*name)?;
                }
            }
            None => self.first = Some(*name),
        }
        Ok(())
    }
}
