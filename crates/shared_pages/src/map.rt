ghost use Rattle.std.specs.Prelude.{◌≡◌, ◌<◌, None, Some, IfOk, []};
ghost use Rattle.std.specs.Option.{option_copied, unwrap_or};
ghost use Rattle.name_core.specs.declared.name.Name.{Name as Bytes};
ghost use Rattle.shared_pages.specs.Buckets.{value_of, bucket_at, shelf_of, row_of, bucket_of, Gives};

use crate::again::Again;
use crate::bucket::Bucket;
use crate::hash::number_of;
use crate::open::Open;
use crate::root::Root;
use crate::shares::Shares;
use memory_core::Memory;
use name_core::Name;
use std::alloc::Global;
use std::marker::Model;

/// A bucket by its place: on which shelf, in which row there, and where in the row.
#[derive(Clone, Copy)]
pub(crate) struct Slot {
    pub(crate) shelf: usize,
    pub(crate) row: usize,
    pub(crate) bucket: usize,
}

/// Where a name stands.
pub(crate) fn slot_of(name: &Name) -> Slot
    ensures shelf { result.shelf ≡ shelf_of name.now }
    ensures row { result.row ≡ row_of name.now }
    ensures bucket { result.bucket ≡ bucket_of name.now }
    ensures small_shelf { result.shelf < 16 }
    ensures small_row { result.row < 16 }
    ensures small_bucket { result.bucket < 16 }
{
    let number = number_of(name) as usize;
    Slot {
        shelf: number % 16,
        row: number / 16 % 16,
        bucket: number / 256 % 16,
    }
}

/// Values by name. A copy shares them all. A change touches the list of shelves, and the shelf, the row and the bucket of its
/// name: what a copy shares of these is copied first, with the values of that bucket, and what none shares stays. It takes
/// memory for the list of shelves at each change, and for places that are not there yet. Contracts see the shelves, and by
/// `value_of` the value of each name.
#[derive(Drop)]
pub struct SharedMap<V> {
    root: Root<Shares<Shares<Bucket<V>>>>,
}

impl<V> Model for SharedMap<V> {
    ghost use Rattle.shared_pages.specs.Buckets.{Shelves};

    ghost Value = { Shelves V };

    ghost view = { λ s. s.root };
}

impl<V: Again> SharedMap<V> {
    /// No values. It takes no memory.
    pub fn new(alloc: Global) -> SharedMap<V>
        ensures { (a : Bytes) → value_of result a ≡ None }
    {
        let _ = alloc;
        SharedMap { root: Root::new() }
    }

    /// Lends the value of the name, or `None` exactly where it has none.
    pub fn get(&self, name: &Name) -> Option<&V>
        ensures { option_copied result ≡ value_of self.now name.now }
    {
        let slot = slot_of(name);
        match self.bucket(&slot) {
            Some(pairs) => pairs.get(name),
            None => None,
        }
    }

    /// The bucket at the slot, where there is one.
    fn bucket(&self, slot: &Slot) -> Option<&Bucket<V>>
        ensures { unwrap_or (option_copied result) [] ≡ bucket_at self.now slot.now.shelf slot.now.row slot.now.bucket }
    {
        let Some(root) = self.root.list() else {
            return None;
        };
        let Some(shelf) = root.get(slot.shelf) else {
            return None;
        };
        match shelf.get(slot.row) {
            Some(row) => row.get(slot.bucket),
            None => None,
        }
    }

    /// The same map again. It shares every value. An `Err` is want of memory, and this map is as before.
    pub fn copy(&self) -> Result<SharedMap<V>, Memory>
        ensures { IfOk result (λ m. m ≡ self.now) }
    {
        let root = self.root.copy()?;
        Ok(SharedMap { root })
    }

    /// The map of these shelves.
    pub(crate) fn of_root(root: Root<Shares<Shares<Bucket<V>>>>) -> SharedMap<V>
        ensures { result ≡ root }
    {
        SharedMap { root }
    }

    /// Takes the value of the name out of the map. It gives the map, open at the name, in which the name has no value and each
    /// other name what it had, and the value, or `None` exactly where there was none: the value itself where no copy shares it,
    /// else a copy of it. It takes this map over, and what copies of this map share stays as it is for them. An `Err` is want
    /// of memory: this map is gone then, and the copies are as before.
    pub fn open(self, alloc: Global, name: &Name) -> Result<(Open<V>, Option<V>), Memory>
        ensures map { IfOk result (λ r. Gives self name.now None r.0.map) }
        ensures name { IfOk result (λ r. r.0.name ≡ name.now) }
        ensures value { IfOk result (λ r. r.1 ≡ value_of self name.now) }
    {
        let slot = slot_of(name);
        let SharedMap { root } = self;
        let mut shelves = root.own(alloc)?;
        let mut shelf = shelves.take(alloc, slot.shelf)?;
        let mut row = shelf.take(alloc, slot.row)?;
        let mut bucket = row.take(alloc, slot.bucket)?;
        let value = bucket.take(name);
        let open = Open {
            shelves,
            shelf,
            row,
            bucket,
            slot,
            name: *name,
        };
        Ok((open, value))
    }

    /// The map in which the name has this value, or none, and each other name what it had.
    fn changed(self, alloc: Global, name: &Name, value: Option<V>) -> Result<SharedMap<V>, Memory>
        ensures { IfOk result (Gives self name.now value) }
    {
        let (open, _old) = self.open(alloc, name)?;
        open.close(alloc, value)
    }

    /// The map in which the name has this value, and each other name what it had. It takes this map over, and what copies of
    /// this map share stays as it is for them. An `Err` is want of memory: this map and the value are gone then, and the
    /// copies are as before.
    pub fn put(self, alloc: Global, name: &Name, value: V) -> Result<SharedMap<V>, Memory>
        ensures { IfOk result (Gives self name.now (Some value)) }
    {
        self.changed(alloc, name, Some(value))
    }

    /// The map in which the name has no value, and each other name what it had. It takes this map over, and what copies of
    /// this map share stays as it is for them. An `Err` is want of memory: this map is gone then, and the copies are as before.
    pub fn remove(self, alloc: Global, name: &Name) -> Result<SharedMap<V>, Memory>
        ensures { IfOk result (Gives self name.now None) }
    {
        self.changed(alloc, name, None)
    }
}
