ghost use Rattle.std.specs.Prelude.{◌≡◌, [], cond, OnOk, OnErr, IfOk};
ghost use Rattle.std.specs.Option.{option_copied};
ghost use Rattle.std.specs.List.{IsDistinct};
ghost use Rattle.std.specs.Map.{lookup, keys_of, remove_entry};
ghost use Rattle.indexmap.specs.IndexMap.{insert_entry};
ghost use Rattle.name_core.specs.declared.name.Name.{Name as Bytes};
ghost use Rattle.name_core.specs.Same.{same_name};
ghost use Rattle.shared_pages.specs.Named.{IsFound};

use crate::again::Again;
use memory_core::Memory;
use name_core::Name;
use std::alloc::Global;
use std::marker::Model;

/// Where the name stands, or `None` exactly where it does not.
fn place_in<V: Drop>(entries: &[(Name, V)], name: &Name) -> Option<usize>
    ensures { IsFound (same_name name.now) entries.now result }
{
    for place in 0..entries.len() {
        if *name == entries[place].0 {
            return Some(place);
        }
    }
    None
}

/// The same pairs, with room for one more.
fn with_room<V: Again>(alloc: Global, pairs: &[(Name, V)]) -> Result<Vec<(Name, V)>, Memory>
    ensures { IfOk result (λ p. p.items ≡ pairs.now) }
{
    let mut entries = Vec::with_capacity(alloc, pairs.len() + 1)?;
    for pair in pairs {
        entries.push((pair.0, pair.1.again()?))?;
    }
    Ok(entries)
}

/// A few names with their values, in one piece of memory: the values stand in it themselves, so a copy costs one piece of
/// memory and what the copies of the values cost. No name stands twice. Contracts see it as the list of its pairs.
#[derive(Drop)]
pub struct Bucket<V> {
    entries: Vec<(Name, V)>,
}

impl<V> Model for Bucket<V> {
    ghost use Rattle.std.specs.Prelude.{List};
    ghost use Rattle.std.specs.List.{IsDistinct};
    ghost use Rattle.std.specs.Map.{keys_of};
    ghost use Rattle.name_core.specs.declared.name.Name.{Name as Bytes};
    ghost use Rattle.name_core.specs.Same.{same_name};

    ghost Value = { List (Bytes × V) };

    ghost view = { λ s. s.entries.items };

    ghost invariant = { λ s. IsDistinct same_name (keys_of s.entries.items) };
}

impl<V: Again> Bucket<V> {
    /// No pairs. It takes no memory until one is put in.
    pub(crate) fn new(alloc: Global) -> Bucket<V>
        ensures { result ≡ [] }
    {
        Bucket {
            entries: Vec::new(alloc),
        }
    }

    /// Lends the value of the name, or `None` exactly where it has none.
    pub(crate) fn get(&self, name: &Name) -> Option<&V>
        ensures { option_copied result ≡ lookup (same_name name.now) self.now }
    {
        match place_in(&self.entries, name) {
            Some(place) => Some(&self.entries[place].1),
            None => None,
        }
    }

    /// The same pairs again, with room for one more.
    pub(crate) fn copy(&self) -> Result<Bucket<V>, Memory>
        ensures { IfOk result (λ p. p ≡ self.now) }
    {
        let entries = with_room(*self.entries.allocator(), &self.entries)?;
        Ok(Bucket { entries })
    }

    /// Gives the name this value: in its place where it has one, else at the end.
    pub(crate) fn insert(&mut self, name: &Name, value: V) -> Result<(), Memory>
        ensures ok { OnOk result (self.new ≡ insert_entry same_name self.old name.now value) }
        ensures err { OnErr result (self.new ≡ self.old) }
    {
        if let Some(place) = place_in(&self.entries, name) {
            self.entries[place] = (*name, value);
            return Ok(());
        }
        self.entries.push((*name, value))?;
        Ok(())
    }

    /// Takes the name out, where it has a value, and gives that value. No name stood twice.
    pub(crate) fn take(&mut self, name: &Name) -> Option<V>
        ensures value { result ≡ lookup (same_name name.now) self.old }
        ensures pairs { self.new ≡ remove_entry (same_name name.now) self.old }
        ensures distinct { IsDistinct same_name (keys_of self.old) }
    {
        match place_in(&self.entries, name) {
            Some(place) => {
                let (_name, value) = self.entries.remove(place);
                Some(value)
            }
            None => None,
        }
    }

    /// Gives the name this value, or none, and leaves each other name what it has.
    pub(crate) fn change(&mut self, name: &Name, value: Option<V>) -> Result<(), Memory>
        ensures { OnOk result ((a : Bytes) → lookup (same_name a) self.new ≡ cond (same_name name.now a) value (lookup (same_name a) self.old)) }
    {
        match value {
            Some(value) => self.insert(name, value)?,
            None => {
                let _old = self.take(name);
            }
        }
        Ok(())
    }
}
