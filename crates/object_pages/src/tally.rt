ghost use Rattle.std.specs.Prelude.{◌≡◌, ◌≢◌, ◌≤◌, ◌<◌, ◌+◌, ◌^◌, ℕ, [], ◌∷◌, cond, nat_eq, length, slice_get, sum, IfOk, IfSome, IfNone};
ghost use Rattle.std.specs.List.{IsDistinct};
ghost use Rattle.std.specs.Map.{keys_of, values_of};
ghost use Rattle.shared_pages.specs.Named.{IsFound};
ghost use Rattle.object_pages.specs.Tallies.{count_on};

use crate::shared_tally::SharedTally;
use memory_core::Memory;
use std::alloc::Global;
use std::marker::Model;

/// Where the page of the number stands. The first one is looked at first.
fn place_from_front(counts: &[(u64, u64)], page: u64) -> Option<usize>
    ensures { IsFound (nat_eq page) counts.now result }
{
    for place in 0..counts.len() {
        if page == counts[place].0 {
            return Some(place);
        }
    }
    None
}

/// Where the page of the number stands. The last one is looked at first: objects come page after page, and so do the leaves
/// that name one name.
fn place_of(counts: &[(u64, u64)], page: u64) -> Option<usize>
    requires { IsDistinct nat_eq (keys_of counts.now) }
    ensures { IsFound (nat_eq page) counts.now result }
{
    let Some(last) = counts.len().checked_sub(1) else {
        return None;
    };
    if page == counts[last].0 {
        return Some(last);
    }
    place_from_front(counts, page)
}

/// How many leaves name one name, by the number of the page on which they stand, in one piece of memory. No page stands
/// twice. Contracts see it as the list of the numbers and the counts.
#[derive(Drop)]
pub(crate) struct Tally {
    counts: Vec<(u64, u64)>,
}

impl Model for Tally {
    ghost use Rattle.std.specs.Prelude.{List, ℕ, nat_eq};
    ghost use Rattle.std.specs.List.{IsDistinct};
    ghost use Rattle.std.specs.Map.{keys_of};

    ghost Value = { List (ℕ × ℕ) };

    ghost view = { λ s. s.counts.items };

    ghost invariant = { λ s. IsDistinct nat_eq (keys_of s.counts.items) };
}

impl Tally {
    /// No leaves. It takes no memory until one is counted.
    pub(crate) fn new(alloc: Global) -> Tally
        ensures { result ≡ [] }
    {
        Tally {
            counts: Vec::new(alloc),
        }
    }

    /// So many leaves on one page, with room for another page.
    pub(crate) fn of_one(alloc: Global, page: u64, leaves: u64) -> Result<Tally, Memory>
        ensures { IfOk result (λ t. t ≡ (page, leaves) ∷ []) }
    {
        let mut counts = Vec::with_capacity(alloc, 2)?;
        counts.push((page, leaves))?;
        Ok(Tally { counts })
    }

    /// The number of the page and how many leaves stand on it, where it is one alone.
    pub(crate) fn only(&self) -> Option<(u64, u64)>
        ensures some { IfSome result (λ c. self.now ≡ c ∷ []) }
        ensures none { IfNone result (length self.now ≢ 1) }
    {
        if self.counts.len() == 1 {
            self.at(0)
        } else {
            None
        }
    }

    /// The number of pages.
    pub(crate) fn len(&self) -> usize
        ensures value { result ≡ length self.now }
        ensures distinct { IsDistinct nat_eq (keys_of self.now) }
    {
        self.counts.len()
    }

    /// The number of the page at the place, counted from 0, and how many leaves stand on it, or `None` exactly past the end.
    pub(crate) fn at(&self, place: usize) -> Option<(u64, u64)>
        ensures { result ≡ slice_get self.now place }
    {
        match self.counts.get(place) {
            Some(count) => Some(*count),
            None => None,
        }
    }

    /// How many leaves there are on all pages.
    pub(crate) fn total(&self) -> u64
        requires { sum (values_of self.now) < 2 ^ 64 }
        ensures { result ≡ sum (values_of self.now) }
    {
        self.counts.iter().map(|count| count.1).sum()
    }

    /// The same counts again, with room for one page more.
    pub(crate) fn copy(&self) -> Result<Tally, Memory>
        ensures { IfOk result (λ t. t ≡ self.now) }
    {
        let mut counts = Vec::with_capacity(*self.counts.allocator(), self.counts.len() + 1)?;
        counts.extend_from_slice(&self.counts)?;
        Ok(Tally { counts })
    }

    /// The counts with so many leaves more on the page of the number. A page with none is left out.
    pub(crate) fn add(self, page: u64, leaves: u64) -> Result<Tally, Memory>
        requires { count_on self page + leaves < 2 ^ 64 }
        ensures { IfOk result (λ t. (n : ℕ) → count_on t n ≡ count_on self n + cond (nat_eq page n) leaves 0) }
    {
        let Tally { mut counts } = self;
        if let Some(place) = place_of(&counts, page) {
            let sum = counts[place].1 + leaves;
            counts[place] = (page, sum);
            return Ok(Tally { counts });
        }
        if leaves == 0 {
            return Ok(Tally { counts });
        }
        counts.push((page, leaves))?;
        Ok(Tally { counts })
    }

    /// The counts with so many leaves less on the page of the number. A page with none is left out.
    pub(crate) fn take(self, page: u64, leaves: u64) -> Result<Tally, Memory>
        requires { leaves ≤ count_on self page }
        ensures { IfOk result (λ t. (n : ℕ) → count_on t n + cond (nat_eq page n) leaves 0 ≡ count_on self n) }
    {
        let Tally { mut counts } = self;
        let Some(place) = place_of(&counts, page) else {
            return Ok(Tally { counts });
        };
        let rest = counts[place].1 - leaves;
        if rest == 0 {
            let _count = counts.remove(place);
            return Ok(Tally { counts });
        }
        counts[place] = (page, rest);
        Ok(Tally { counts })
    }

    /// The counts with those of the other added.
    pub(crate) fn and(self, alloc: Global, more: &SharedTally) -> Result<Tally, Memory>
        requires room { (n : ℕ) → count_on self n + count_on more.now n < 2 ^ 64 }
        ensures { IfOk result (λ t. (n : ℕ) → count_on t n ≡ count_on self n + count_on more.now n) }
    {
        if self.counts.is_empty() {
            return more.copy(alloc);
        }
        let mut joined = self;
        for place in 0..more.len() {
            if let Some((page, leaves)) = more.at(place) {
                joined = joined.add(page, leaves)?;
            }
        }
        Ok(joined)
    }
}
