ghost use Rattle.std.specs.Prelude.{◌≡◌, ◌≤◌, [], IsTrue, IfOk, IfSome, OnOk, OnErr, false, is_some, length};
ghost use Rattle.std.specs.Borrow.{sem};
ghost use Rattle.std.specs.List.{IsDistinct};
ghost use Rattle.std.specs.Map.{keys_of, lookup};
ghost use Rattle.std.specs.NonZero.{non_zero_usize_get};
ghost use Rattle.std.specs.Option.{option_copied};
ghost use Rattle.tile_cache.specs.Kept.{AreNamed, front_moved, is_kept, kept_with, most_kept};

use crate::limit::MOST_KEPT;
use crate::named::Named;
use lru::LruCache;
use memory_core::Memory;
use std::alloc::Global;
use std::hash::Hash;
use std::marker::Model;
use std::num::NonZeroUsize;

/// Values that are kept by their keys. Contracts see them as the list of the keys with their values, the last used first: at
/// most 4,096, no two keys equal, and each value names a key that equals its own. Equal means what `==` of the keys says.
///
/// A look-up costs one hash of the key and comparisons with the keys of that hash, however many are kept, and takes no memory.
/// So does a value that is put in, but for the memory that it takes for itself and now and then for a larger table.
#[derive(Drop)]
pub struct TileCache<K: Eq + Hash, V: Named<K>> {
    cache: LruCache<K, V>,
}

impl<K: Eq + Hash, V: Named<K>> Model for TileCache<K, V> {
    ghost use Rattle.std.specs.Prelude.{List};
    ghost use Rattle.tile_cache.specs.Kept.{IsCache};

    ghost Value = { List (K × V) };

    ghost view = { λ s. s.cache.entries };

    ghost invariant = { λ s. IsCache K.eq V.named s.cache };
}

/// The limit as a number over 0.
fn capacity() -> NonZeroUsize
    ensures { non_zero_usize_get result ≡ 4096 }
{
    NonZeroUsize::new(MOST_KEPT).unwrap()
}

impl<K: Eq + Hash, V: Named<K>> TileCache<K, V> {
    ghost use Rattle.tile_cache.specs.Lent.{ends_as};

    /// Keeps nothing yet. It takes a few bytes, and no room for values.
    pub fn new(alloc: Global) -> Result<TileCache<K, V>, Memory>
        ensures { IfOk result (λ cache. cache ≡ []) }
    {
        let cache = LruCache::sparse(alloc, capacity())?;
        Ok(TileCache { cache })
    }

    /// How many values are kept.
    pub fn len(&self) -> usize
        ensures count { result ≡ length self.now }
        ensures most { length self.now ≤ most_kept }
        ensures apart { IsDistinct K.eq (keys_of self.now) }
        ensures named { AreNamed K.eq V.named self.now }
    {
        self.cache.len()
    }

    /// Whether a key is kept that equals this one. The order stays.
    pub fn has(&self, key: &K) -> bool
        ensures { result ≡ is_kept K.eq key.now self.now }
    {
        self.cache.contains(key)
    }

    /// The value of the key that equals this one, which moves to the front with its key; and `None` exactly where there is no
    /// such key, and then all stays.
    pub fn find(&mut self, key: &K) -> Option<&V>
        ensures* moved { sem 𝓛 (ends_as K.row V.row K.Hash (record { named = V.named }) self.entry (front_moved K.eq key.now self.old)) }
        ensures value { option_copied result ≡ lookup (K.eq key.now) self.old }
        ensures found { is_some (option_copied result) ≡ is_kept K.eq key.now self.old }
        ensures named { IfSome (option_copied result) (λ v. IsTrue (K.eq (V.named v) key.now)) }
        ensures stays { is_kept K.eq key.now self.old ≡ false → front_moved K.eq key.now self.old ≡ self.old }
    {
        self.cache.get(key)
    }

    /// Puts a value with its key at the front. Where 4,096 are kept the last one falls out.
    ///
    /// The value's key equals this one, and no key is kept that does. Where there is no memory all stays.
    pub fn keep(&mut self, key: K, value: V) -> Result<(), Memory>
    where
        K: Drop,
        V: Drop,
        requires named { IsTrue (K.eq (V.named value) key) }
        requires fresh { is_kept K.eq key self.old ≡ false }
        ensures kept { OnOk result (self.new ≡ kept_with key value self.old) }
        ensures memory { OnErr result (self.new ≡ self.old) }
    {
        self.cache.put(key, value)?;
        Ok(())
    }

    /// Keeps nothing any more. It takes no memory, and gives back that of all values.
    pub fn clear(&mut self)
    where
        K: Drop,
        V: Drop,
        ensures { self.new ≡ [] }
    {
        self.cache.clear();
    }
}
