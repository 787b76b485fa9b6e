ghost use Rattle.std.specs.Prelude.{◌≡◌, ◌<◌, ◌^◌, [], ◌∷◌, nat_eq, length, slice_get, sum, IfOk};
ghost use Rattle.std.specs.List.{IsDistinct};
ghost use Rattle.std.specs.Option.{option_map};
ghost use Rattle.std.specs.Map.{keys_of, values_of};

use crate::tally::Tally;
use memory_core::Memory;
use shared_pages::Again;
use std::alloc::Global;
use std::marker::Model;
use std::sync::Arc;

/// Counts of one name that copies share. One page with its count stands here itself, as most names are named on one page or
/// on none, and only more of them are shared. Contracts see the counts.
#[derive(Drop)]
pub(crate) struct SharedTally {
    page: u64,
    leaves: u64,
    /// All counts, where there is not one alone.
    all: Option<Arc<Tally>>,
}

impl Model for SharedTally {
    ghost use Rattle.std.specs.Prelude.{List, ℕ};
    ghost use Rattle.object_pages.specs.Tallies.{counts_shared};

    ghost Value = { List (ℕ × ℕ) };

    ghost view = { λ s. counts_shared s.page s.leaves s.all };
}

impl SharedTally {
    /// So many leaves on one page.
    pub(crate) fn of_one(page: u64, leaves: u64) -> SharedTally
        ensures { result ≡ (page, leaves) ∷ [] }
    {
        SharedTally {
            page,
            leaves,
            all: None,
        }
    }

    /// The counts, to be shared.
    pub(crate) fn of_tally(alloc: Global, tally: Tally) -> Result<SharedTally, Memory>
        ensures { IfOk result (λ s. s ≡ tally) }
    {
        match tally.only() {
            Some((page, leaves)) => Ok(SharedTally::of_one(page, leaves)),
            None => {
                let all = Arc::new(alloc, tally)?;
                Ok(SharedTally {
                    page: 0,
                    leaves: 0,
                    all: Some(all),
                })
            }
        }
    }

    /// The number of pages.
    pub(crate) fn len(&self) -> usize
        ensures value { result ≡ length self.now }
        ensures distinct { IsDistinct nat_eq (keys_of self.now) }
    {
        match &self.all {
            Some(all) => all.len(),
            None => 1,
        }
    }

    /// The number of the page at the place, counted from 0, and how many leaves stand on it, or `None` exactly past the end.
    pub(crate) fn at(&self, place: usize) -> Option<(u64, u64)>
        ensures { result ≡ slice_get self.now place }
    {
        match &self.all {
            Some(all) => all.at(place),
            None if place == 0 => Some((self.page, self.leaves)),
            None => None,
        }
    }

    /// The number of the page at the place, counted from 0, or `None` exactly past the end.
    pub(crate) fn page_at(&self, place: usize) -> Option<u64>
        ensures { result ≡ option_map (λ c. c.0) (slice_get self.now place) }
    {
        match self.at(place) {
            Some((page, _leaves)) => Some(page),
            None => None,
        }
    }

    /// How many leaves there are on all pages.
    pub(crate) fn total(&self) -> u64
        requires { sum (values_of self.now) < 2 ^ 64 }
        ensures { result ≡ sum (values_of self.now) }
    {
        match &self.all {
            Some(all) => all.total(),
            None => self.leaves,
        }
    }

    /// The counts apart: these where nothing else shares them, else a copy.
    pub(crate) fn own(self, alloc: Global) -> Result<Tally, Memory>
        ensures { IfOk result (λ t. t ≡ self) }
    {
        let SharedTally { page, leaves, all } = self;
        let Some(share) = all else {
            return Tally::of_one(alloc, page, leaves);
        };
        match Arc::try_unwrap(share) {
            Ok(tally) => Ok(tally),
            Err(share) => share.copy(),
        }
    }

    /// The counts apart, with room for one page more.
    pub(crate) fn copy(&self, alloc: Global) -> Result<Tally, Memory>
        ensures { IfOk result (λ t. t ≡ self.now) }
    {
        match &self.all {
            Some(all) => all.copy(),
            None => Tally::of_one(alloc, self.page, self.leaves),
        }
    }
}

impl Again for SharedTally {
    fn again(&self) -> Result<SharedTally, Memory> {
        let Some(all) = &self.all else {
            return Ok(SharedTally::of_one(self.page, self.leaves));
        };
        let all = Arc::try_clone(all)?;
        Ok(SharedTally {
            page: self.page,
            leaves: self.leaves,
            all: Some(all),
        })
    }
}
