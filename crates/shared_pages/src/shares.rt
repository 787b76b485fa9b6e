ghost use Rattle.std.specs.Prelude.{◌≡◌, ◌<◌, ◌++◌, ◌∷◌, [], length, slice_get, slice_set, remove, OnOk, OnErr, IfOk, IfSome, IfNone};
ghost use Rattle.std.specs.Arc.{arc_value};
ghost use Rattle.std.specs.Option.{option_copied};

use crate::blank::Blank;
use memory_core::Memory;
use std::alloc::Global;
use std::marker::Model;
use std::mem;
use std::sync::Arc;

/// A list of shared values, of which a copy shares them all. Contracts see it as the list of the values.
#[derive(Drop)]
pub struct Shares<T> {
    items: Vec<Arc<T>>,
}

impl<T> Model for Shares<T> {
    ghost use Rattle.std.specs.Prelude.{List, map};
    ghost use Rattle.std.specs.Arc.{arc_value};

    ghost Value = { List T };

    ghost view = { λ s. map arc_value s.items.items };
}

impl<T: Drop> Shares<T> {
    /// The empty list. It takes no memory until a value is put in.
    pub fn new(alloc: Global) -> Shares<T>
        ensures { result ≡ [] }
    {
        Shares {
            items: Vec::new(alloc),
        }
    }

    /// The number of values.
    pub fn len(&self) -> usize
        ensures { result ≡ length self.now }
    {
        self.items.len()
    }

    /// Lends the value at the place, counted from 0, or `None` exactly past the end.
    pub fn get(&self, place: usize) -> Option<&T>
        ensures { option_copied result ≡ slice_get self.now place }
    {
        match self.items.get(place) {
            Some(item) => Some(&**item),
            None => None,
        }
    }

    /// The same list again. It shares every value.
    pub fn copy(&self) -> Result<Shares<T>, Memory>
        ensures { IfOk result (λ s. s ≡ self.now) }
    {
        let items = self.items.clone()?;
        Ok(Shares { items })
    }

    /// Puts a value at the end.
    pub fn push(&mut self, alloc: Global, value: T) -> Result<(), Memory>
        ensures ok { OnOk result (self.new ≡ self.old ++ value ∷ []) }
        ensures err { OnErr result (self.new ≡ self.old) }
    {
        let item = Arc::new(alloc, value)?;
        self.push_share(item)
    }

    /// Puts a share of a value at the end.
    pub(crate) fn push_share(&mut self, item: Arc<T>) -> Result<(), Memory>
        ensures ok { OnOk result (self.new ≡ self.old ++ arc_value item ∷ []) }
        ensures err { OnErr result (self.new ≡ self.old) }
    {
        self.items.push(item)?;
        Ok(())
    }

    /// Puts a value in the place of another one, which the lists that share it keep. One that none shares is overwritten.
    pub fn set(&mut self, alloc: Global, place: usize, value: T) -> Result<(), Memory>
        requires { place < length self.old }
        ensures ok { OnOk result (self.new ≡ slice_set self.old place value) }
        ensures err { OnErr result (self.new ≡ self.old) }
    {
        if let Some(old) = Arc::get_mut(&mut self.items[place]) {
            *old = value;
            return Ok(());
        }
        let item = Arc::new(alloc, value)?;
        self.items[place] = item;
        Ok(())
    }

    /// Takes a share of the last value out of this list, where there is one.
    pub(crate) fn take_last(&mut self) -> Option<Arc<T>>
        ensures some { IfSome result (λ share. self.old ≡ self.new ++ arc_value share ∷ []) }
        ensures none { IfNone result ((self.old ≡ []) × (self.new ≡ [])) }
    {
        self.items.pop()
    }

    /// Takes the value at the place out of this list.
    pub fn remove(&mut self, place: usize)
        requires { place < length self.old }
        ensures { self.new ≡ remove self.old place }
    {
        let _item = self.items.remove(place);
    }
}

impl<T: Blank> Shares<T> {
    ghost use Rattle.std.specs.Prelude.{◌≡◌, ◌≢◌, ◌<◌, ◌++◌, ◌∷◌, ◌⊎◌, [], ℕ, length, slice_index_or, slice_set, IfOk, OnOk};

    /// Makes places, as far as they are not there, up to this one. The new ones are empty.
    fn pad(&mut self, alloc: Global, place: usize) -> Result<(), Memory>
        ensures items { OnOk result ((i : ℕ) → slice_index_or self.new i T.empty ≡ slice_index_or self.old i T.empty) }
        ensures there { OnOk result (place < length self.new) }
    {
        while self.items.len() <= place {
            self.push(alloc, T::blank(alloc))?;
        }
        Ok(())
    }

    /// Takes the value at a place that is there. What it leaves there is to be overwritten: a value that is shared is copied and
    /// stays, and in the place of one that is not stands an empty one. Neither takes memory of its own.
    pub(crate) fn take_at(&mut self, alloc: Global, place: usize) -> Result<T, Memory>
        requires { place < length self.old }
        ensures value { IfOk result (λ v. v ≡ slice_index_or self.old place T.empty) }
        ensures hole { OnOk result ((v : T) → slice_set self.new place v ≡ slice_set self.old place v) }
        ensures same_length { OnOk result (length self.new ≡ length self.old) }
    {
        if let Some(value) = Arc::get_mut(&mut self.items[place]) {
            return Ok(mem::replace(value, T::blank(alloc)));
        }
        self.items[place].again()
    }

    /// Takes the value at the place, which is to be overwritten.
    pub(crate) fn take(&mut self, alloc: Global, place: usize) -> Result<T, Memory>
        ensures value { IfOk result (λ v. v ≡ slice_index_or self.old place T.empty) }
        ensures others { OnOk result ((i : ℕ) → i ≢ place → slice_index_or self.new i T.empty ≡ slice_index_or self.old i T.empty) }
        ensures there { OnOk result (place < length self.new) }
    {
        self.pad(alloc, place)?;
        self.take_at(alloc, place)
    }
    /// Takes the last value out of this list, and an empty one where there is none. Where another list shares it, it is a copy.
    pub(crate) fn last_taken(&mut self, alloc: Global) -> Result<T, Memory>
        ensures { IfOk result (λ v. (self.old ≡ self.new ++ v ∷ []) ⊎ ((self.old ≡ []) × (self.new ≡ []) × (v ≡ T.empty))) }
    {
        let Some(share) = self.items.pop() else {
            return Ok(T::blank(alloc));
        };
        match Arc::try_unwrap(share) {
            Ok(value) => Ok(value),
            Err(share) => share.again(),
        }
    }
}
