ghost use Rattle.std.specs.Prelude.{IfOk};
ghost use Rattle.shared_pages.specs.Buckets.{Gives};

use crate::again::Again;
use crate::bucket::Bucket;
use crate::map::{SharedMap, Slot};
use crate::root::Root;
use crate::shares::Shares;
use memory_core::Memory;
use name_core::Name;
use std::alloc::Global;
use std::marker::Model;

/// A map that is open at a name: the bucket of the name, its row, its shelf and the list of shelves stand apart until the
/// map is closed. One that is dropped in place of that is gone with the map. Contracts see the name, and the map with the
/// parts put back in their places.
#[derive(Drop)]
pub struct Open<V> {
    pub(crate) shelves: Shares<Shares<Shares<Bucket<V>>>>,
    pub(crate) shelf: Shares<Shares<Bucket<V>>>,
    pub(crate) row: Shares<Bucket<V>>,
    pub(crate) bucket: Bucket<V>,
    pub(crate) slot: Slot,
    pub(crate) name: Name,
}

impl<V> Model for Open<V> {
    ghost use Rattle.shared_pages.specs.Opened.{OpenMap, rejoined, HasPlaces};

    ghost Value = { OpenMap V };

    ghost view = { λ s. record { map = rejoined s.shelves s.slot.shelf s.shelf s.slot.row s.row s.slot.bucket s.bucket; name = s.name } };

    ghost invariant = { λ s. HasPlaces s.shelves s.slot.shelf s.shelf s.slot.row s.row s.slot.bucket s.name };
}

impl<V: Again> Open<V> {
    /// Closes the map: its name has this value then, or none, and each other name what it has in the open map. An `Err` is
    /// want of memory: the map and the value are gone then, and the copies of the map are as before.
    pub fn close(self, alloc: Global, value: Option<V>) -> Result<SharedMap<V>, Memory>
        ensures { IfOk result (Gives self.map self.name value) }
    {
        let Open {
            mut shelves,
            mut shelf,
            mut row,
            mut bucket,
            slot,
            name,
        } = self;
        bucket.change(&name, value)?;
        row.set(alloc, slot.bucket, bucket)?;
        shelf.set(alloc, slot.row, row)?;
        shelves.set(alloc, slot.shelf, shelf)?;
        let root = Root::of_list(alloc, shelves)?;
        Ok(SharedMap::of_root(root))
    }
}
