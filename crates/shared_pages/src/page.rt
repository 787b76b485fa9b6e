ghost use Rattle.std.specs.Prelude.{◌≡◌, ◌∷◌, [], IfOk};
ghost use Rattle.std.specs.Arc.{arc_value};
ghost use Rattle.std.specs.Map.{remove_entry};
ghost use Rattle.indexmap.specs.IndexMap.{insert_entry};
ghost use Rattle.name_core.specs.Same.{same_name};

use crate::pairs::Pairs;
use memory_core::Memory;
use name_core::Name;
use std::alloc::Global;
use std::marker::Model;
use std::sync::Arc;

/// Some pairs, under a number. Contracts see the number and the pairs.
#[derive(Drop)]
pub struct Page<V> {
    number: u64,
    pairs: Pairs<V>,
}

impl<V> Model for Page<V> {
    ghost use Rattle.std.specs.Prelude.{ℕ, List};
    ghost use Rattle.name_core.specs.declared.name.Name.{Name as Bytes};

    ghost Value = { ℕ × List (Bytes × V) };

    ghost view = { λ s. (s.number, s.pairs) };
}

impl<V: Drop> Page<V> {
    /// The number.
    pub fn number(&self) -> u64
        ensures { result ≡ self.now.0 }
    {
        self.number
    }

    /// Lends the pairs.
    pub fn pairs(&self) -> &Pairs<V>
        ensures { result.now ≡ self.now.1 }
    {
        &self.pairs
    }

    /// The page of a number and pairs.
    pub(crate) fn of_pairs(number: u64, pairs: Pairs<V>) -> Page<V>
        ensures { result ≡ (number, pairs) }
    {
        Page { number, pairs }
    }

    /// A page of one pair.
    pub(crate) fn of_pair(
        alloc: Global,
        number: u64,
        name: &Name,
        value: Arc<V>,
    ) -> Result<Page<V>, Memory>
        ensures { IfOk result (λ p. p ≡ (number, (name.now, arc_value value) ∷ [])) }
    {
        let mut pairs = Pairs::new(alloc);
        pairs.insert(name, value)?;
        Ok(Page { number, pairs })
    }

    /// The same page again. It shares the values.
    pub(crate) fn copy(&self) -> Result<Page<V>, Memory>
        ensures { IfOk result (λ p. p ≡ self.now) }
    {
        let pairs = self.pairs.copy()?;
        Ok(Page {
            number: self.number,
            pairs,
        })
    }

    /// The page itself where this is its only share, else a copy.
    pub(crate) fn own(share: Arc<Page<V>>) -> Result<Page<V>, Memory>
        ensures { IfOk result (λ p. p ≡ arc_value share) }
    {
        match Arc::try_unwrap(share) {
            Ok(page) => Ok(page),
            Err(share) => share.copy(),
        }
    }

    /// This page, on which the name has this value: in its place where it has one, else at the end.
    pub(crate) fn with(self, name: &Name, value: Arc<V>) -> Result<Page<V>, Memory>
        ensures { IfOk result (λ p. p ≡ (self.0, insert_entry same_name self.1 name.now (arc_value value))) }
    {
        let Page { number, mut pairs } = self;
        pairs.insert(name, value)?;
        Ok(Page { number, pairs })
    }

    /// The pairs of this page without that of the name.
    pub(crate) fn without(self, name: &Name) -> Pairs<V>
        ensures { result ≡ remove_entry (same_name name.now) self.1 }
    {
        let Page { mut pairs, .. } = self;
        pairs.remove(name);
        pairs
    }
}
