ghost use Rattle.std.specs.Prelude.{◌≡◌, [], length, slice_get, OnOk, OnErr, IfOk};
ghost use Rattle.std.specs.Arc.{arc_value};
ghost use Rattle.std.specs.Option.{option_copied, option_map};
ghost use Rattle.std.specs.List.{IsDistinct};
ghost use Rattle.std.specs.Map.{lookup, keys_of, remove_entry};
ghost use Rattle.std.specs.Map.Iter.{deref_pair};
ghost use Rattle.indexmap.specs.IndexMap.{insert_entry};
ghost use Rattle.name_core.specs.Same.{same_name};

use indexmap::IndexMap;
use memory_core::Memory;
use name_core::Name;
use std::alloc::Global;
use std::marker::Model;
use std::sync::Arc;

/// Names with their shared values, in order. No name stands twice, and a copy shares the values. Contracts see it as the
/// list of the names and the values.
#[derive(Drop)]
pub struct Pairs<V> {
    entries: IndexMap<Name, Arc<V>>,
}

impl<V> Model for Pairs<V> {
    ghost use Rattle.std.specs.Prelude.{List};
    ghost use Rattle.name_core.specs.declared.name.Name.{Name as Bytes};
    ghost use Rattle.shared_pages.specs.Sharing.{values_shared};

    ghost Value = { List (Bytes × V) };

    ghost view = { λ s. values_shared s.entries.entries };
}

impl<V: Drop> Pairs<V> {
    /// No pairs. It takes no memory until one is put in.
    pub fn new(alloc: Global) -> Pairs<V>
        ensures { result ≡ [] }
    {
        Pairs {
            entries: IndexMap::new(alloc),
        }
    }

    /// The number of pairs.
    pub fn len(&self) -> usize
        ensures value { result ≡ length self.now }
        ensures distinct { IsDistinct same_name (keys_of self.now) }
    {
        self.entries.len()
    }

    /// Lends the name and the value at the place, counted from 0, or `None` exactly past the end.
    pub fn at(&self, place: usize) -> Option<(&Name, &V)>
        ensures { option_map deref_pair result ≡ slice_get self.now place }
    {
        match self.entries.get_index(place) {
            Some((name, value)) => Some((name, &**value)),
            None => None,
        }
    }

    /// Lends the share of the value at the place, counted from 0, or `None` exactly past the end. A clone of it shares the
    /// value.
    pub fn share_at(&self, place: usize) -> Option<&Arc<V>>
        ensures { option_map (λ s. arc_value s.now) result ≡ option_map (λ e. e.1) (slice_get self.now place) }
    {
        match self.entries.get_index(place) {
            Some((_name, value)) => Some(value),
            None => None,
        }
    }

    /// Lends the value of the name, or `None` exactly where it has none.
    pub fn get(&self, name: &Name) -> Option<&V>
        ensures { option_copied result ≡ lookup (same_name name.now) self.now }
    {
        match self.entries.get(name) {
            Some(value) => Some(&**value),
            None => None,
        }
    }

    /// The same pairs again. They share every value. An `Err` is want of memory.
    pub fn copy(&self) -> Result<Pairs<V>, Memory>
        ensures { IfOk result (λ p. p ≡ self.now) }
    {
        let entries = self.entries.clone()?;
        Ok(Pairs { entries })
    }

    /// Gives the name this value: in its place where it has one, else at the end. An `Err` is want of memory: the pairs are
    /// as before then, and this share of the value is gone.
    pub fn insert(&mut self, name: &Name, value: Arc<V>) -> Result<(), Memory>
        ensures ok { OnOk result (self.new ≡ insert_entry same_name self.old name.now (arc_value value)) }
        ensures err { OnErr result (self.new ≡ self.old) }
    {
        let _old = self.entries.insert(*name, value)?;
        Ok(())
    }

    /// Takes the name and its share of the value out, where it has one.
    pub fn remove(&mut self, name: &Name)
        ensures { self.new ≡ remove_entry (same_name name.now) self.old }
    {
        let _value = self.entries.shift_remove(name);
    }
}
